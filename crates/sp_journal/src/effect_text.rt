// The lines of effects.
ghost use Rattle.std.specs.Prelude.{◌≡◌, ◌++◌, ◌∷◌, [], OnOk, codes};
ghost use Rattle.std.specs.Fmt.{decimal};
ghost use Rattle.std.specs.String.{string_bytes};
ghost use Rattle.sp_lines.specs.Rows.{after_spaces, line_text};
ghost use Rattle.sp_text.specs.Spelling.{hex_word};
ghost use Rattle.sp_journal.specs.JournalText.{effect_lines};
ghost use Rattle.sp_journal.specs.Words.{effect_fields, effect_words, why_word};

use sp_base::{Flow, Memory, NodeId};
use sp_lines::{push_field, push_hex_field, push_name_field};
use sp_msg::{Effect, Why};

/// Appends a line for each effect.
pub fn push_effect_lines(out: &mut String, effects: &[Effect]) -> Result<(), Memory>
    ensures { OnOk result (string_bytes out.new ≡ string_bytes out.old ++ effect_lines effects.now) }
{
    'effects: for effect in effects {
        push_effect_line(out, effect)?;
    }
    Ok(())
}

fn push_effect_line(out: &mut String, effect: &Effect) -> Result<(), Memory>
    ensures { OnOk result (string_bytes out.new ≡ string_bytes out.old ++ line_text (effect_words effect.now)) }
{
    out.push_str("+")?;
    push_fields(out, effect)?;
    out.push_str("\n")?;
    Ok(())
}

/// Appends the words of an effect, each after a space.
fn push_fields(out: &mut String, effect: &Effect) -> Result<(), Memory>
    ensures { OnOk result (string_bytes out.new ≡ string_bytes out.old ++ after_spaces (effect_fields effect.now)) }
{
    match effect {
        Effect::Signed(body) => {
            push_name_field(out, "signed")?;
            push_hex_field(out, body.as_slice())
        }
        Effect::Stored {
            place,
            id,
            src,
            seq,
            prio,
        } => push_stored(out, *place, *id, *src, *seq, *prio),
        Effect::Gone { place, id, why } => {
            push_name_field(out, "gone")?;
            push_field(out, u64::from(*place))?;
            push_field(out, *id)?;
            push_name_field(out, why_word(*why))
        }
        Effect::Delivered { src, seq, payload } => {
            push_delivered(out, "rel", *src, *seq, payload.as_slice())
        }
        Effect::DeliveredPrio { src, seq, payload } => {
            push_delivered(out, "prio", *src, *seq, payload.as_slice())
        }
        Effect::DeliveredKrel { src, seq, payload } => {
            push_delivered(out, "krel", *src, *seq, payload.as_slice())
        }
        Effect::WeightHeld {
            origin,
            edge,
            seq,
            weight,
        } => {
            push_name_field(out, "weight")?;
            push_field(out, u64::from(origin.0))?;
            push_field(out, u64::from(edge.0))?;
            push_field(out, *seq)?;
            push_field(out, u64::from(*weight))
        }
        Effect::Ended(flow) => push_ended(out, "ended", *flow),
        Effect::Kended(flow) => push_ended(out, "kended", *flow),
        Effect::Version { version } => {
            push_name_field(out, "version")?;
            push_field(out, u64::from(*version))
        }
    }
}

fn push_stored(
    out: &mut String,
    place: u8,
    id: u64,
    src: NodeId,
    seq: u64,
    prio: u8,
) -> Result<(), Memory>
    ensures { OnOk result (string_bytes out.new ≡ string_bytes out.old
        ++ after_spaces (codes "stored" ∷ decimal place ∷ decimal id ∷ decimal src.0 ∷ decimal seq ∷ decimal prio ∷ [])) }
{
    push_name_field(out, "stored")?;
    push_field(out, u64::from(place))?;
    push_field(out, id)?;
    push_field(out, u64::from(src.0))?;
    push_field(out, seq)?;
    push_field(out, u64::from(prio))
}

/// Appends that a message of a kind was delivered: its source, its number and its payload.
fn push_delivered(
    out: &mut String,
    kind: &str,
    src: NodeId,
    seq: u64,
    payload: &[u8],
) -> Result<(), Memory>
    ensures { OnOk result (string_bytes out.new ≡ string_bytes out.old
        ++ after_spaces (codes "delivered" ∷ kind.now ∷ decimal src.0 ∷ decimal seq ∷ hex_word payload.now ∷ [])) }
{
    push_name_field(out, "delivered")?;
    push_name_field(out, kind)?;
    push_field(out, u64::from(src.0))?;
    push_field(out, seq)?;
    push_hex_field(out, payload)
}

/// Appends that a flow ended, by the word of its kind.
fn push_ended(out: &mut String, word: &str, flow: Flow) -> Result<(), Memory>
    ensures { OnOk result (string_bytes out.new ≡ string_bytes out.old
        ++ after_spaces (word.now ∷ decimal flow.src.0 ∷ decimal flow.dst.0 ∷ [])) }
{
    push_name_field(out, word)?;
    push_field(out, u64::from(flow.src.0))?;
    push_field(out, u64::from(flow.dst.0))
}

fn why_word(why: Why) -> &'static str
    ensures { result.now ≡ why_word why }
{
    match why {
        Why::Evicted => "evicted",
        Why::Expired => "expired",
        Why::Acked => "acked",
        Why::Taken => "taken",
        Why::Withdrawn => "withdrawn",
    }
}
