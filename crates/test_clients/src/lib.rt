//! Sessions of clients held against dialogues of another program, over a node in memory that counts its calls.
#![tactic(auto)]

#[cfg(test)]
mod bad_input;
#[cfg(test)]
mod dialogues;
#[cfg(test)]
mod memory_node;
#[cfg(test)]
mod questions;
#[cfg(test)]
mod talk;
#[cfg(test)]
mod talks;
#[cfg(test)]
mod want_of_memory;
