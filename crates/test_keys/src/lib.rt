//! Key files that nobody should meet, and a reserve that is stopped after each of its calls.
#![tactic(auto)]

#[cfg(test)]
mod crashes;
#[cfg(test)]
mod files;
