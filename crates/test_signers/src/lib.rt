//! Signers of two levels, and verifiers that remember, held against Bouncy Castle 1.72 and a check that remembers nothing; seeds at two heights; the
//! upper tree of RFC 8554.
#![tactic(auto)]

#[cfg(test)]
mod heights;
#[cfg(test)]
mod keys;
#[cfg(test)]
mod refusals;
#[cfg(test)]
mod signers;
#[cfg(test)]
mod verifiers;
