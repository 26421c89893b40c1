// The lines of nodes that start and stop: with epochs alone.
ghost use Rattle.std.specs.Prelude.{◌∷◌, codes, map};
ghost use Rattle.sp_lines.specs.Answers.{Reads};
ghost use Rattle.sp_schedule_events.specs.Names.{line_where};
ghost use Rattle.sp_schedule_events.specs.Table as forms;

use crate::joined::if_joined;
use crate::line_of::LineOf;
use crate::nodes::correct;
use crate::{Event, Fault, LineRefused};

/// `start U`.
#[tactic(auto, unfolding(crate::specs::EventLines::read_form))]
pub fn start(line: &LineOf<'_>, words: &[&[u8]]) -> Result<Event, LineRefused>
    ensures { Reads result (line_where line.now.scenario.now.epochs line.now.scenario.now line.now.before.now forms.Start
        (codes "start" ∷ map (λ w. w.now) words.now)) }
{
    if !line.scenario.epochs {
        return Err(LineRefused::Bad(Fault::Form));
    }
    let [u] = words else {
        return Err(LineRefused::Bad(Fault::Form));
    };
    let u = correct(line.scenario, u)?;
    if_joined(!line.before.is_started(u), Event::Start { u })
}

/// `stop U`.
#[tactic(auto, unfolding(crate::specs::EventLines::read_form))]
pub fn stop(line: &LineOf<'_>, words: &[&[u8]]) -> Result<Event, LineRefused>
    ensures { Reads result (line_where line.now.scenario.now.epochs line.now.scenario.now line.now.before.now forms.Stop
        (codes "stop" ∷ map (λ w. w.now) words.now)) }
{
    if !line.scenario.epochs {
        return Err(LineRefused::Bad(Fault::Form));
    }
    let [u] = words else {
        return Err(LineRefused::Bad(Fault::Form));
    };
    let u = correct(line.scenario, u)?;
    if_joined(line.before.is_started(u), Event::Stop { u })
}
