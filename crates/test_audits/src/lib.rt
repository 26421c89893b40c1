//! The auditor held against runs: a story whose journal is changed, rounds that are counted by hand, and runs of generated schedules.
#![tactic(auto)]

#[cfg(test)]
mod counts;
#[cfg(test)]
mod cut_files;
#[cfg(test)]
mod generated;
#[cfg(test)]
mod journals;
#[cfg(test)]
mod stories;
