// The lines of documents: in format 2 alone.
ghost use Rattle.std.specs.Prelude.{◌∷◌, codes, map};
ghost use Rattle.sp_lines.specs.Answers.{Reads};
ghost use Rattle.sp_schedule_events.specs.Names.{line_where};
ghost use Rattle.sp_schedule_events.specs.Scenarios.{has_documents};
ghost use Rattle.sp_schedule_events.specs.Table as forms;

use crate::documents::{may_craft, may_publish};
use crate::joined::{are_joined, if_joined, may_act};
use crate::line_of::LineOf;
use crate::nodes::{correct, has_documents, node};
use crate::{Event, Fault, LineRefused};
use sp_base::MAX_WEIGHT;
use sp_lines::{numbers, ranged};

/// `publish U LIST`.
#[tactic(auto, unfolding(crate::specs::EventLines::read_form))]
pub fn publish(line: &LineOf<'_>, words: &[&[u8]]) -> Result<Event, LineRefused>
    ensures { Reads result (line_where (has_documents line.now.scenario.now) line.now.scenario.now line.now.before.now forms.Publish
        (codes "publish" ∷ map (λ w. w.now) words.now)) }
{
    if !has_documents(line.scenario) {
        return Err(LineRefused::Bad(Fault::Form));
    }
    let [u, list] = words else {
        return Err(LineRefused::Bad(Fault::Form));
    };
    let edges = line.scenario.graph.edges.as_slice().len();
    let u = correct(line.scenario, u)?;
    let weights = numbers(line.alloc, list, edges, MAX_WEIGHT)?;
    let good = may_act(line, u) && may_publish(line.scenario, line.before.published(), &weights);
    if_joined(good, Event::Publish { u, weights })
}

/// `craft C V KEY document N LIST`.
#[tactic(auto, unfolding(crate::specs::EventLines::read_form))]
pub fn document(
    line: &LineOf<'_>,
    c: &[u8],
    v: &[u8],
    key: &[u8],
    fields: &[&[u8]],
) -> Result<Event, LineRefused>
    ensures { Reads result (line_where (has_documents line.now.scenario.now) line.now.scenario.now line.now.before.now forms.CraftDocument
        (codes "craft" ∷ c.now ∷ v.now ∷ key.now ∷ codes "document" ∷ map (λ w. w.now) fields.now)) }
{
    if !has_documents(line.scenario) {
        return Err(LineRefused::Bad(Fault::Form));
    }
    let [version, list] = fields else {
        return Err(LineRefused::Bad(Fault::Form));
    };
    let edges = line.scenario.graph.edges.as_slice().len();
    let c = node(line.scenario, c)?;
    let v = correct(line.scenario, v)?;
    let key = ranged(key, 0, u64::from(line.scenario.graph.nodes))? as u8;
    let version = ranged(version, 1, u64::from(u32::MAX))? as u32;
    let weights = numbers(line.alloc, list, edges, MAX_WEIGHT)?;
    let good = are_joined(line.scenario, c, v)
        && may_craft(
            line.scenario,
            line.before.published(),
            key,
            version,
            &weights,
        );
    let event = Event::CraftDocument {
        c,
        v,
        key,
        version,
        weights,
    };
    if_joined(good, event)
}
