//! What no file of inputs and outputs can show of the program: an outside that fails or gives pieces, the world that is left, a daemon over memory,
//! bits of a signature, certificates of paths.
#![tactic(auto)]

#[cfg(test)]
mod asked;
#[cfg(test)]
mod certificates;
#[cfg(test)]
mod daemons;
#[cfg(test)]
mod ends;
#[cfg(test)]
mod first_message;
#[cfg(test)]
mod graphs;
#[cfg(test)]
mod outside;
#[cfg(test)]
mod program;
#[cfg(test)]
mod random;
#[cfg(test)]
mod signature;
#[cfg(test)]
mod worlds;
