//! Parts of a node held against rows that no schedule can show: the others are files of `conformance/` (docs/HOUSE.md).
#![tactic(auto)]

#[cfg(test)]
mod datagrams;
#[cfg(test)]
mod meters;
#[cfg(test)]
mod priority;
#[cfg(test)]
mod stores;
#[cfg(test)]
mod weights;
#[cfg(test)]
mod windows;
