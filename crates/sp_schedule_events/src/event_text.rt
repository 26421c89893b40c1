// The line of an event, written.
ghost use Rattle.std.specs.Prelude.{◌≡◌, ◌++◌, ◌∷◌, [], OnOk, codes};
ghost use Rattle.std.specs.Fmt.{decimal};
ghost use Rattle.std.specs.String.{string_bytes};
ghost use Rattle.sp_text.specs.Spelling.{hex_word};
ghost use Rattle.sp_lines.specs.Cells.{numbers_word};
ghost use Rattle.sp_lines.specs.Rows.{after_spaces, line_text};
ghost use Rattle.sp_schedule_events.specs.Events.{event_words};
ghost use Rattle.sp_schedule_events.specs.Kinds.{IsCraft};
ghost use Rattle.sp_schedule_events.specs.Written.{back_words, event_name, front_words, pair_words};

use crate::{Event, Scenario};
use sp_base::{Listed, Memory, NodeId};
use sp_lines::{push_field, push_hex_field, push_name_field, push_numbers_field};
use sp_schedule_crafts::push_object;

/// Appends the line of an event of a scenario. After an error the text is unspecified.
pub fn push_event(out: &mut String, scenario: &Scenario, event: &Event) -> Result<(), Memory>
    ensures { OnOk result (string_bytes out.new ≡ string_bytes out.old ++ line_text (event_words scenario.now event.now)) }
{
    out.push_str(event_name(event))?;
    push_front(out, event)?;
    push_back(out, scenario.format, event)?;
    out.push_str("\n")?;
    Ok(())
}

/// The name of an event.
fn event_name(event: &Event) -> &'static str
    ensures { result.now ≡ event_name event.now }
{
    match event {
        Event::Rel { .. } => "rel",
        Event::Prio { .. } => "prio",
        Event::Take { .. } => "take",
        Event::TakePrio { .. } => "takep",
        Event::Tick { .. } => "tick",
        Event::Weight { .. } => "weight",
        Event::Poll { .. } => "poll",
        Event::Pass { .. } => "pass",
        Event::Flip { .. } => "flip",
        Event::Inject { .. } => "inject",
        Event::Craft { .. } | Event::CraftStatus { .. } | Event::CraftDocument { .. } => "craft",
        Event::Start { .. } => "start",
        Event::Stop { .. } => "stop",
        Event::Publish { .. } => "publish",
        Event::Krel { .. } => "krel",
        Event::KTake { .. } => "ktake",
    }
}

/// Appends the node that acts, and the other node or the moment.
fn push_front(out: &mut String, event: &Event) -> Result<(), Memory>
    ensures { OnOk result (string_bytes out.new ≡ string_bytes out.old ++ after_spaces (front_words event.now)) }
{
    match event {
        Event::Rel { s, d, .. } | Event::Prio { s, d, .. } | Event::Krel { s, d, .. } => {
            push_pair(out, *s, *d)
        }
        Event::Take { d, s } | Event::KTake { d, s } => push_pair(out, *d, *s),
        Event::TakePrio { d } => push_field(out, u64::from(d.0)),
        Event::Start { u } | Event::Stop { u } | Event::Publish { u, .. } => {
            push_field(out, u64::from(u.0))
        }
        Event::Tick { u, now } => push_moment(out, *u, *now),
        Event::Weight { u, v, .. }
        | Event::Poll { u, v }
        | Event::Pass { u, v, .. }
        | Event::Flip { u, v, .. }
        | Event::Inject { u, v, .. } => push_pair(out, *u, *v),
        Event::Craft { c, v, .. }
        | Event::CraftStatus { c, v, .. }
        | Event::CraftDocument { c, v, .. } => push_pair(out, *c, *v),
    }
}

/// Appends what comes after these.
fn push_back(out: &mut String, format: u8, event: &Event) -> Result<(), Memory>
    ensures { OnOk result (string_bytes out.new ≡ string_bytes out.old ++ after_spaces (back_words format event.now)) }
{
    match event {
        Event::Rel { payload, .. } => push_hex_field(out, payload.as_slice()),
        Event::Prio {
            prio,
            expiry,
            paths,
            payload,
            ..
        } => push_prio(out, *prio, *expiry, *paths, payload.as_slice()),
        Event::Krel { paths, payload, .. } => push_paths(out, *paths, payload.as_slice()),
        Event::Take { .. } | Event::TakePrio { .. } | Event::KTake { .. } => Ok(()),
        Event::Tick { .. } | Event::Poll { .. } => Ok(()),
        Event::Start { .. } | Event::Stop { .. } => Ok(()),
        Event::Weight { weight, .. } => push_field(out, u64::from(*weight)),
        Event::Pass { number, .. } => push_field(out, u64::from(*number)),
        Event::Flip {
            number,
            back,
            bit,
            ..
        } => push_flip(out, *number, *back, *bit),
        Event::Inject { bytes, .. } => push_hex_field(out, bytes.as_slice()),
        Event::Craft { .. } | Event::CraftStatus { .. } => push_craft(out, format, event),
        Event::Publish { weights, .. } => push_numbers_field(out, weights),
        Event::CraftDocument {
            key,
            version,
            weights,
            ..
        } => push_document(out, *key, *version, weights),
    }
}

/// Appends what comes after the nodes of a crafted frame.
fn push_craft(out: &mut String, format: u8, event: &Event) -> Result<(), Memory>
    requires { IsCraft event.now }
    ensures { OnOk result (string_bytes out.new ≡ string_bytes out.old ++ after_spaces (back_words format event.now)) }
{
    match event {
        Event::Craft { key, object, .. } => {
            push_field(out, u64::from(key.0))?;
            push_object(out, format, object)
        }
        Event::CraftStatus {
            s,
            d,
            base,
            have,
            ..
        } => push_status(out, *s, *d, *base, *have),
        _ => unreachable!(),
    }
}

/// Appends two nodes.
fn push_pair(out: &mut String, a: NodeId, b: NodeId) -> Result<(), Memory>
    ensures { OnOk result (string_bytes out.new ≡ string_bytes out.old ++ after_spaces (pair_words a b)) }
{
    push_field(out, u64::from(a.0))?;
    push_field(out, u64::from(b.0))
}

/// Appends a node and a moment.
fn push_moment(out: &mut String, u: NodeId, now: u64) -> Result<(), Memory>
    ensures { OnOk result (string_bytes out.new ≡ string_bytes out.old ++ after_spaces (decimal u.0 ∷ decimal now ∷ [])) }
{
    push_field(out, u64::from(u.0))?;
    push_field(out, now)
}

/// Appends what comes after the nodes of a priority message.
fn push_prio(
    out: &mut String,
    prio: u8,
    expiry: u64,
    paths: u8,
    payload: &[u8],
) -> Result<(), Memory>
    ensures { OnOk result (string_bytes out.new ≡ string_bytes out.old
        ++ after_spaces (decimal prio ∷ decimal expiry ∷ decimal paths ∷ hex_word payload.now ∷ [])) }
{
    push_field(out, u64::from(prio))?;
    push_field(out, expiry)?;
    push_field(out, u64::from(paths))?;
    push_hex_field(out, payload)
}

/// Appends what comes after the nodes of a message on paths.
fn push_paths(out: &mut String, paths: u8, payload: &[u8]) -> Result<(), Memory>
    ensures { OnOk result (string_bytes out.new ≡ string_bytes out.old ++ after_spaces (decimal paths ∷ hex_word payload.now ∷ [])) }
{
    push_field(out, u64::from(paths))?;
    push_hex_field(out, payload)
}

/// Appends which frame is changed, and where.
fn push_flip(out: &mut String, number: u32, back: u8, bit: u8) -> Result<(), Memory>
    ensures { OnOk result (string_bytes out.new ≡ string_bytes out.old ++ after_spaces (decimal number ∷ decimal back ∷ decimal bit ∷ [])) }
{
    push_field(out, u64::from(number))?;
    push_field(out, u64::from(back))?;
    push_field(out, u64::from(bit))
}

/// Appends a report.
fn push_status(out: &mut String, s: NodeId, d: NodeId, base: u64, have: u64) -> Result<(), Memory>
    ensures { OnOk result (string_bytes out.new ≡ string_bytes out.old
        ++ after_spaces (codes "status" ∷ decimal s.0 ∷ decimal d.0 ∷ decimal base ∷ decimal have ∷ [])) }
{
    push_name_field(out, "status")?;
    push_pair(out, s, d)?;
    push_field(out, base)?;
    push_field(out, have)
}

/// Appends the key, the version and the weights of a crafted document.
fn push_document(
    out: &mut String,
    key: u8,
    version: u32,
    weights: &Option<Listed<u32>>,
) -> Result<(), Memory>
    ensures { OnOk result (string_bytes out.new ≡ string_bytes out.old
        ++ after_spaces (decimal key ∷ codes "document" ∷ decimal version ∷ numbers_word weights.now ∷ [])) }
{
    push_field(out, u64::from(key))?;
    push_name_field(out, "document")?;
    push_field(out, u64::from(version))?;
    push_numbers_field(out, weights)
}
