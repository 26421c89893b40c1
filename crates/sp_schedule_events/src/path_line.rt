// The lines of flows on paths: in format 2 alone.
ghost use Rattle.std.specs.Prelude.{◌∷◌, codes, map};
ghost use Rattle.sp_lines.specs.Answers.{Reads};
ghost use Rattle.sp_schedule_events.specs.Names.{line_where};
ghost use Rattle.sp_schedule_events.specs.Scenarios.{has_paths};
ghost use Rattle.sp_schedule_events.specs.Table as forms;

use crate::joined::{differ, if_joined, may_act};
use crate::line_of::LineOf;
use crate::nodes::{correct, has_paths, node};
use crate::{Event, Fault, LineRefused};
use sp_base::MAX_PAYLOAD_BYTES;
use sp_lines::{bytes, ranged};

/// `krel S D K HEX`.
#[tactic(auto, unfolding(crate::specs::EventLines::read_form))]
pub fn krel(line: &LineOf<'_>, words: &[&[u8]]) -> Result<Event, LineRefused>
    ensures { Reads result (line_where (has_paths line.now.scenario.now) line.now.scenario.now line.now.before.now forms.Krel
        (codes "krel" ∷ map (λ w. w.now) words.now)) }
{
    if !has_paths(line.scenario) {
        return Err(LineRefused::Bad(Fault::Form));
    }
    let [s, d, paths, payload] = words else {
        return Err(LineRefused::Bad(Fault::Form));
    };
    let s = correct(line.scenario, s)?;
    let d = node(line.scenario, d)?;
    let paths = ranged(paths, 1, 8)? as u8;
    let payload = bytes(line.alloc, payload, 0, MAX_PAYLOAD_BYTES)?;
    let event = Event::Krel {
        s,
        d,
        paths,
        payload,
    };
    if_joined(may_act(line, s) && differ(s, d), event)
}

/// `ktake D S`.
#[tactic(auto, unfolding(crate::specs::EventLines::read_form))]
pub fn ktake(line: &LineOf<'_>, words: &[&[u8]]) -> Result<Event, LineRefused>
    ensures { Reads result (line_where (has_paths line.now.scenario.now) line.now.scenario.now line.now.before.now forms.KTake
        (codes "ktake" ∷ map (λ w. w.now) words.now)) }
{
    if !has_paths(line.scenario) {
        return Err(LineRefused::Bad(Fault::Form));
    }
    let [d, s] = words else {
        return Err(LineRefused::Bad(Fault::Form));
    };
    let d = correct(line.scenario, d)?;
    let s = node(line.scenario, s)?;
    if_joined(may_act(line, d) && differ(d, s), Event::KTake { d, s })
}
