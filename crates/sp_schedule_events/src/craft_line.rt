// The lines of frames that compromised nodes craft: with one object, with a document, or with a report and no object.
ghost use Rattle.std.specs.Prelude.{◌∷◌, codes, map};
ghost use Rattle.sp_lines.specs.Answers.{Reads};
ghost use Rattle.sp_schedule_events.specs.EventLines.{read_event};
ghost use Rattle.sp_schedule_events.specs.Names.{crafted_event, line_for};
ghost use Rattle.sp_schedule_events.specs.Table as forms;

use crate::document_line::document;
use crate::joined::{are_joined, differ, if_joined};
use crate::line_of::LineOf;
use crate::nodes::{correct, node};
use crate::{Event, Fault, LineRefused};
use sp_lines::{named, ranged};
use sp_schedule_crafts::{ObjectForm, object_form, read_object};

/// `craft C V status S D BASE HAVE`, or `craft C V KEY` and an object or a document.
pub fn craft(line: &LineOf<'_>, words: &[&[u8]]) -> Result<Event, LineRefused>
    ensures { Reads result (read_event line.now.scenario.now line.now.before.now (codes "craft" ∷ map (λ w. w.now) words.now)) }
{
    match words {
        [c, v, key, name, fields @ ..] => crafted(line, c, v, key, name, fields),
        _ => Err(LineRefused::Bad(Fault::Form)),
    }
}

/// A report, or a document or an object of this name.
fn crafted(
    line: &LineOf<'_>,
    c: &[u8],
    v: &[u8],
    key: &[u8],
    name: &[u8],
    fields: &[&[u8]],
) -> Result<Event, LineRefused>
    ensures { Reads result (read_event line.now.scenario.now line.now.before.now
        (codes "craft" ∷ c.now ∷ v.now ∷ key.now ∷ name.now ∷ map (λ w. w.now) fields.now)) }
{
    if named(key, b"status") {
        return report(line, c, v, name, fields);
    }
    if named(name, b"document") {
        return document(line, c, v, key, fields);
    }
    let Some(form) = object_form(line.scenario.format, name, fields.len()) else {
        return Err(LineRefused::Bad(Fault::Form));
    };
    object(line, c, v, key, form, fields)
}

/// A report and no object.
#[tactic(auto, unfolding(crate::specs::EventLines::read_form))]
fn report(
    line: &LineOf<'_>,
    c: &[u8],
    v: &[u8],
    s: &[u8],
    fields: &[&[u8]],
) -> Result<Event, LineRefused>
    ensures { Reads result (line_for line.now.scenario.now line.now.before.now forms.CraftStatus
        (codes "craft" ∷ c.now ∷ v.now ∷ codes "status" ∷ s.now ∷ map (λ w. w.now) fields.now)) }
{
    let [d, base, have] = fields else {
        return Err(LineRefused::Bad(Fault::Form));
    };
    let c = node(line.scenario, c)?;
    let v = correct(line.scenario, v)?;
    let s = node(line.scenario, s)?;
    let d = node(line.scenario, d)?;
    let base = ranged(base, 0, u64::MAX)?;
    let have = ranged(have, 0, u64::MAX)?;
    let event = Event::CraftStatus {
        c,
        v,
        s,
        d,
        base,
        have,
    };
    if_joined(are_joined(line.scenario, c, v) && differ(s, d), event)
}

/// An object that is signed by a key.
fn object(
    line: &LineOf<'_>,
    c: &[u8],
    v: &[u8],
    key: &[u8],
    form: ObjectForm,
    fields: &[&[u8]],
) -> Result<Event, LineRefused>
    ensures { Reads result (crafted_event line.now.scenario.now c.now v.now key.now form (map (λ w. w.now) fields.now)) }
{
    let c = node(line.scenario, c)?;
    let v = correct(line.scenario, v)?;
    let key = node(line.scenario, key)?;
    let object = read_object(line.alloc, line.scenario.format, form, fields)?;
    if_joined(
        are_joined(line.scenario, c, v),
        Event::Craft { c, v, key, object },
    )
}
