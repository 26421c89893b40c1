// Which line it is, and what it is read with.
use crate::{Scenario, Timeline};
use std::alloc::Global;

/// Which line it is, by its first word.
#[derive(Clone, Copy, Debug, PartialEq, Eq)]
pub enum LineName {
    Rel,
    Prio,
    Take,
    TakePrio,
    Tick,
    Weight,
    Poll,
    Pass,
    Flip,
    Inject,
    Craft,
    Start,
    Stop,
    Publish,
    Krel,
    KTake,
}

/// What a line is read with: memory, the scenario, and the events before it.
#[derive(Clone, Copy)]
pub struct LineOf<'a> {
    pub alloc: Global,
    pub scenario: &'a Scenario,
    pub before: &'a Timeline,
}
