// The lines of frames that are made, arrive, are changed on their way, or are made up.
ghost use Rattle.std.specs.Prelude.{◌≡◌, ◌∷◌, [], codes, map};
ghost use Rattle.sp_lines.specs.Answers.{Reads};
ghost use Rattle.sp_schedule_events.specs.Names.{line_for};
ghost use Rattle.sp_schedule_events.specs.Table as forms;

use crate::joined::{are_joined, if_joined, is_polled, may_act};
use crate::line_of::LineOf;
use crate::nodes::{correct, node};
use crate::{Event, Fault, LineRefused};
use sp_lines::{bytes, ranged};

/// The longest datagram.
const MAX_DATAGRAM_BYTES: usize = 65_507;

/// `poll U V`.
#[tactic(auto, unfolding(crate::specs::EventLines::read_form))]
pub fn poll(line: &LineOf<'_>, words: &[&[u8]]) -> Result<Event, LineRefused>
    ensures { Reads result (line_for line.now.scenario.now line.now.before.now forms.Poll (codes "poll" ∷ map (λ w. w.now) words.now)) }
{
    let [u, v] = words else {
        return Err(LineRefused::Bad(Fault::Form));
    };
    let u = correct(line.scenario, u)?;
    let v = node(line.scenario, v)?;
    if_joined(
        may_act(line, u) && are_joined(line.scenario, u, v),
        Event::Poll { u, v },
    )
}

/// `pass U V NUMBER`.
pub fn pass(line: &LineOf<'_>, words: &[&[u8]]) -> Result<Event, LineRefused>
    ensures { Reads result (line_for line.now.scenario.now line.now.before.now forms.Pass (codes "pass" ∷ map (λ w. w.now) words.now)) }
{
    match words {
        [u, v, number] => pass_of(line, u, v, number),
        _ => Err(LineRefused::Bad(Fault::Form)),
    }
}

/// The event of these words.
#[tactic(auto, unfolding(crate::specs::EventLines::read_form))]
fn pass_of(line: &LineOf<'_>, u: &[u8], v: &[u8], number: &[u8]) -> Result<Event, LineRefused>
    ensures { Reads result (line_for line.now.scenario.now line.now.before.now forms.Pass
        (codes "pass" ∷ u.now ∷ v.now ∷ number.now ∷ [])) }
{
    let u = correct(line.scenario, u)?;
    let v = correct(line.scenario, v)?;
    let number = ranged(number, 0, u64::MAX)?;
    if !is_polled(line.before, u, v, number) {
        return Err(LineRefused::Bad(Fault::Range));
    }
    Ok(Event::Pass {
        u,
        v,
        number: number as u32,
    })
}

/// `flip U V NUMBER BACK BIT`.
pub fn flip(line: &LineOf<'_>, words: &[&[u8]]) -> Result<Event, LineRefused>
    ensures { Reads result (line_for line.now.scenario.now line.now.before.now forms.Flip (codes "flip" ∷ map (λ w. w.now) words.now)) }
{
    match words {
        [u, v, number, back, bit] => flip_of(line, u, v, number, back, bit),
        _ => Err(LineRefused::Bad(Fault::Form)),
    }
}

/// The event of these words.
#[tactic(auto, unfolding(crate::specs::EventLines::read_form))]
fn flip_of(
    line: &LineOf<'_>,
    u: &[u8],
    v: &[u8],
    number: &[u8],
    back: &[u8],
    bit: &[u8],
) -> Result<Event, LineRefused>
    ensures { Reads result (line_for line.now.scenario.now line.now.before.now forms.Flip
        (codes "flip" ∷ u.now ∷ v.now ∷ number.now ∷ back.now ∷ bit.now ∷ [])) }
{
    let u = correct(line.scenario, u)?;
    let v = correct(line.scenario, v)?;
    let number = ranged(number, 0, u64::MAX)?;
    let back = ranged(back, 1, 64)? as u8;
    let bit = ranged(bit, 0, 7)? as u8;
    if !is_polled(line.before, u, v, number) {
        return Err(LineRefused::Bad(Fault::Range));
    }
    Ok(Event::Flip {
        u,
        v,
        number: number as u32,
        back,
        bit,
    })
}

/// `inject U V HEX`.
pub fn inject(line: &LineOf<'_>, words: &[&[u8]]) -> Result<Event, LineRefused>
    ensures { Reads result (line_for line.now.scenario.now line.now.before.now forms.Inject (codes "inject" ∷ map (λ w. w.now) words.now)) }
{
    match words {
        [u, v, word] => inject_of(line, u, v, word),
        _ => Err(LineRefused::Bad(Fault::Form)),
    }
}

/// The event of these words.
#[tactic(auto, unfolding(crate::specs::EventLines::read_form))]
fn inject_of(line: &LineOf<'_>, u: &[u8], v: &[u8], word: &[u8]) -> Result<Event, LineRefused>
    ensures { Reads result (line_for line.now.scenario.now line.now.before.now forms.Inject
        (codes "inject" ∷ u.now ∷ v.now ∷ word.now ∷ [])) }
{
    let u = node(line.scenario, u)?;
    let v = correct(line.scenario, v)?;
    let bytes = bytes(line.alloc, word, 0, MAX_DATAGRAM_BYTES)?;
    if_joined(
        are_joined(line.scenario, u, v),
        Event::Inject { u, v, bytes },
    )
}
