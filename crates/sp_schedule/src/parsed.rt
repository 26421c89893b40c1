// What a good line of a schedule gives to who reads it line by line.
use crate::{Event, Scenario};

/// What a good line gives.
#[derive(Debug, Drop)]
pub enum Parsed {
    /// A line of the header before its last.
    Header,
    /// The line `begin`: the header is whole, and this is its scenario.
    Began(Scenario),
    /// The line of an event.
    Event(Event),
    /// The line `end`.
    Ended,
}
