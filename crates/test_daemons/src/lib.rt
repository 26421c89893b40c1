//! Three daemons in one process, turn by turn, over wires in memory that are joined to each other.
#![tactic(auto)]

#[cfg(test)]
mod host;
#[cfg(test)]
mod joined;
#[cfg(test)]
mod line;
#[cfg(test)]
mod quiet;
