//! Messages held against values that were made outside the project.
#![tactic(auto)]

#[cfg(test)]
mod bodies;
#[cfg(test)]
mod format_2;
#[cfg(test)]
mod format_2_rows;
#[cfg(test)]
mod frames;
#[cfg(test)]
mod frames_rows;
#[cfg(test)]
mod told;
