//! Hashes, tags, one-time signatures and keys of one tree held against values that others made: FIPS 180-4, RFC 4231, RFC 8554 and
//! Bouncy Castle 1.72.
#![tactic(auto)]

#[cfg(test)]
mod chains;
#[cfg(test)]
mod lanes;
#[cfg(test)]
mod no_signatures;
#[cfg(test)]
mod one_time;
#[cfg(test)]
mod rfc_8554;
#[cfg(test)]
mod tags;
#[cfg(test)]
mod trees;
