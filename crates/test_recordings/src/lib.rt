//! Recordings of another program held against what is read of them and written again, and three turns of a daemon.
#![tactic(auto)]

#[cfg(test)]
mod recordings;
#[cfg(test)]
mod turns;
