// The lines of what clients and the clock do, a row of the table each.
ghost use Rattle.std.specs.Prelude.{◌≡◌, ◌∷◌, [], codes, map};
ghost use Rattle.sp_lines.specs.Answers.{Reads};
ghost use Rattle.sp_schedule_events.specs.Names.{line_for};
ghost use Rattle.sp_schedule_events.specs.Table as forms;

use crate::joined::{are_joined, differ, if_joined, may_act};
use crate::line_of::LineOf;
use crate::nodes::{correct, node};
use crate::{Event, Fault, LineRefused};
use sp_base::{MAX_PAYLOAD_BYTES, MAX_PRIORITY, MAX_WEIGHT};
use sp_lines::{bytes, ranged};

/// `rel S D HEX`.
pub fn rel(line: &LineOf<'_>, words: &[&[u8]]) -> Result<Event, LineRefused>
    ensures { Reads result (line_for line.now.scenario.now line.now.before.now forms.Rel (codes "rel" ∷ map (λ w. w.now) words.now)) }
{
    match words {
        [s, d, payload] => rel_of(line, s, d, payload),
        _ => Err(LineRefused::Bad(Fault::Form)),
    }
}

/// The event of these words.
#[tactic(auto, unfolding(crate::specs::EventLines::read_form))]
fn rel_of(line: &LineOf<'_>, s: &[u8], d: &[u8], payload: &[u8]) -> Result<Event, LineRefused>
    ensures { Reads result (line_for line.now.scenario.now line.now.before.now forms.Rel
        (codes "rel" ∷ s.now ∷ d.now ∷ payload.now ∷ [])) }
{
    let s = correct(line.scenario, s)?;
    let d = node(line.scenario, d)?;
    let payload = bytes(line.alloc, payload, 0, MAX_PAYLOAD_BYTES)?;
    if_joined(
        may_act(line, s) && differ(s, d),
        Event::Rel { s, d, payload },
    )
}

/// `prio S D P EXPIRY K HEX`.
pub fn prio(line: &LineOf<'_>, words: &[&[u8]]) -> Result<Event, LineRefused>
    ensures { Reads result (line_for line.now.scenario.now line.now.before.now forms.Prio (codes "prio" ∷ map (λ w. w.now) words.now)) }
{
    match words {
        [s, d, prio, expiry, paths, payload] => prio_of(line, s, d, prio, expiry, paths, payload),
        _ => Err(LineRefused::Bad(Fault::Form)),
    }
}

/// The event of these words.
#[tactic(auto, unfolding(crate::specs::EventLines::read_form))]
fn prio_of(
    line: &LineOf<'_>,
    s: &[u8],
    d: &[u8],
    prio: &[u8],
    expiry: &[u8],
    paths: &[u8],
    payload: &[u8],
) -> Result<Event, LineRefused>
    ensures { Reads result (line_for line.now.scenario.now line.now.before.now forms.Prio
        (codes "prio" ∷ s.now ∷ d.now ∷ prio.now ∷ expiry.now ∷ paths.now ∷ payload.now ∷ [])) }
{
    let s = correct(line.scenario, s)?;
    let d = node(line.scenario, d)?;
    let prio = ranged(prio, 1, u64::from(MAX_PRIORITY))? as u8;
    let expiry = ranged(expiry, 0, u64::MAX)?;
    let paths = ranged(paths, 0, 8)? as u8;
    let payload = bytes(line.alloc, payload, 0, MAX_PAYLOAD_BYTES)?;
    let event = Event::Prio {
        s,
        d,
        prio,
        expiry,
        paths,
        payload,
    };
    if_joined(may_act(line, s) && differ(s, d), event)
}

/// `take D S`.
#[tactic(auto, unfolding(crate::specs::EventLines::read_form))]
pub fn take(line: &LineOf<'_>, words: &[&[u8]]) -> Result<Event, LineRefused>
    ensures { Reads result (line_for line.now.scenario.now line.now.before.now forms.Take (codes "take" ∷ map (λ w. w.now) words.now)) }
{
    let [d, s] = words else {
        return Err(LineRefused::Bad(Fault::Form));
    };
    let d = correct(line.scenario, d)?;
    let s = node(line.scenario, s)?;
    if_joined(may_act(line, d) && differ(d, s), Event::Take { d, s })
}

/// `takep D`.
#[tactic(auto, unfolding(crate::specs::EventLines::read_form))]
pub fn takep(line: &LineOf<'_>, words: &[&[u8]]) -> Result<Event, LineRefused>
    ensures { Reads result (line_for line.now.scenario.now line.now.before.now forms.TakePrio (codes "takep" ∷ map (λ w. w.now) words.now)) }
{
    let [d] = words else {
        return Err(LineRefused::Bad(Fault::Form));
    };
    let d = correct(line.scenario, d)?;
    if_joined(may_act(line, d), Event::TakePrio { d })
}

/// `tick U NOW`.
#[tactic(auto, unfolding(crate::specs::EventLines::read_form))]
pub fn tick(line: &LineOf<'_>, words: &[&[u8]]) -> Result<Event, LineRefused>
    ensures { Reads result (line_for line.now.scenario.now line.now.before.now forms.Tick (codes "tick" ∷ map (λ w. w.now) words.now)) }
{
    let [u, now] = words else {
        return Err(LineRefused::Bad(Fault::Form));
    };
    let u = correct(line.scenario, u)?;
    let now = ranged(now, 0, u64::MAX)?;
    if_joined(may_act(line, u), Event::Tick { u, now })
}

/// `weight U V W`.
pub fn weight(line: &LineOf<'_>, words: &[&[u8]]) -> Result<Event, LineRefused>
    ensures { Reads result (line_for line.now.scenario.now line.now.before.now forms.Weight (codes "weight" ∷ map (λ w. w.now) words.now)) }
{
    match words {
        [u, v, weight] => weight_of(line, u, v, weight),
        _ => Err(LineRefused::Bad(Fault::Form)),
    }
}

/// The event of these words.
#[tactic(auto, unfolding(crate::specs::EventLines::read_form))]
fn weight_of(line: &LineOf<'_>, u: &[u8], v: &[u8], weight: &[u8]) -> Result<Event, LineRefused>
    ensures { Reads result (line_for line.now.scenario.now line.now.before.now forms.Weight
        (codes "weight" ∷ u.now ∷ v.now ∷ weight.now ∷ [])) }
{
    let u = correct(line.scenario, u)?;
    let v = node(line.scenario, v)?;
    let weight = ranged(weight, 1, u64::from(MAX_WEIGHT))? as u32;
    if_joined(
        may_act(line, u) && are_joined(line.scenario, u, v),
        Event::Weight { u, v, weight },
    )
}
