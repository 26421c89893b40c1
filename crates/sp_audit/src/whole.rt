// The audit of a whole run.
ghost use Rattle.std.specs.Prelude.{◌≡◌, ◌<◌, ◌≤◌, ◌+◌, false, IfErr, IfOk, length, ℕ};
ghost use Rattle.laws_runs.specs.Good.{AreGood};
ghost use Rattle.sp_audit.specs.Firsts.{IsFirst, KeepsAt};
ghost use Rattle.sp_audit.specs.Refusals.{IsRefusal};
ghost use Rattle.sp_base.specs.declared.limits.TheConstants.{MAX_EVENTS};
ghost use Rattle.sp_runs.specs.Scenarios.{setting_of};

use crate::AuditRefused;
use crate::correct::is_correct;
use crate::messages::order_first;
use crate::once::once_first;
use crate::shelf::place_first;
use crate::top::top_of;
use sp_base::{Memory, NodeId};
use sp_journal::Entry;
use sp_schedule_events::{Event, Scenario};
use std::alloc::Global;

/// Judges events and their journal, one entry for each event, whoever made them, under a header without epochs: good where no event breaks a promise, else
/// `Broken` with the number of the first that does. It never says `NotPath`. It takes time in step with the events and their effects: it looks at each so often
/// as there are pairs of nodes.
pub fn audit(
    alloc: Global,
    scenario: &Scenario,
    events: &[Event],
    journal: &[Entry],
) -> Result<(), AuditRefused>
    requires plain { scenario.now.epochs ≡ false }
    requires even { length events.now ≡ length journal.now }
    requires few { length events.now ≤ MAX_EVENTS }
    ensures good { IfOk result (λ _. AreGood (setting_of scenario.now) events.now journal.now) }
    ensures refused { IfErr result (IsRefusal (setting_of scenario.now) events.now journal.now) }
{
    let top = top_of(events, journal);
    let mut first = events.len() + 1;
    'numbers: for a in 0..usize::from(top) + 1 {
        first = first.min(first_from(alloc, scenario, events, journal, a as u8, top)?);
    }
    if first <= events.len() {
        return Err(AuditRefused::Broken {
            event: first as u32,
        });
    }
    Ok(())
}

/// The number of the first event after which something isn't kept at the pairs of this number, counted from 1: one more than there are where there is none.
fn first_from(
    alloc: Global,
    scenario: &Scenario,
    events: &[Event],
    journal: &[Entry],
    a: u8,
    top: u8,
) -> Result<usize, Memory>
    requires { length events.now ≡ length journal.now }
    ensures { IfOk result (IsFirst (λ m. (b : ℕ) → b < top + 1 → KeepsAt (setting_of scenario.now) events.now journal.now a b m) (length events.now)) }
{
    let mut first = events.len() + 1;
    'numbers: for b in 0..usize::from(top) + 1 {
        first = first.min(first_at(alloc, scenario, events, journal, a, b as u8)?);
    }
    Ok(first)
}

/// The same of one pair of numbers.
fn first_at(
    alloc: Global,
    scenario: &Scenario,
    events: &[Event],
    journal: &[Entry],
    a: u8,
    b: u8,
) -> Result<usize, Memory>
    requires { length events.now ≡ length journal.now }
    ensures { IfOk result (IsFirst (KeepsAt (setting_of scenario.now) events.now journal.now a b) (length events.now)) }
{
    let (from, to) = (NodeId(a), NodeId(b));
    let mut first = place_first(alloc, scenario.limits.store, events, journal, from, b)?;
    if is_correct(scenario, to) {
        first = first.min(once_first(alloc, events, journal, from, to)?);
        if is_correct(scenario, from) {
            first = first.min(order_first(alloc, events, journal, from, to)?);
        }
    }
    Ok(first)
}
