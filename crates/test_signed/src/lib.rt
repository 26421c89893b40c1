//! Signatures of nodes and of the administrator, held against values of another program.
#![tactic(auto)]

#[cfg(test)]
mod administrator;
#[cfg(test)]
mod keys;
#[cfg(test)]
mod nodes;
