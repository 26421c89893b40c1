// A recording written line by line. After an error the text is unspecified.
ghost use Rattle.std.specs.Prelude.{◌≡◌, ◌++◌, ◌∷◌, [], OnOk, codes};
ghost use Rattle.std.specs.Fmt.{decimal};
ghost use Rattle.std.specs.String.{string_bytes};
ghost use Rattle.sp_lines.specs.Rows.{after_spaces, line_text};
ghost use Rattle.sp_recording.specs.RecordingText.{closing_words, line_fields, line_in, line_name, line_words, opening_words};

use crate::{Closing, LineRef, Opening};
use sp_base::Memory;
use sp_lines::{push_field, push_hex_field, push_name_field};

/// Appends the first line.
pub fn push_opening(out: &mut String, opening: &Opening) -> Result<(), Memory>
    ensures { OnOk result (string_bytes out.new ≡ string_bytes out.old ++ line_text (opening_words opening.now)) }
{
    out.push_str("recording")?;
    push_start(out, opening)?;
    out.push_str("\n")?;
    Ok(())
}

/// Appends the version and the three numbers of a start, each after a space.
fn push_start(out: &mut String, opening: &Opening) -> Result<(), Memory>
    ensures { OnOk result (string_bytes out.new ≡ string_bytes out.old
        ++ after_spaces (codes "1" ∷ decimal opening.now.boot ∷ decimal opening.now.index ∷ decimal opening.now.bound ∷ [])) }
{
    push_name_field(out, "1")?;
    push_field(out, opening.boot)?;
    push_field(out, opening.index)?;
    push_field(out, opening.bound)
}

/// Appends the end line.
pub fn push_closing(out: &mut String, closing: &Closing) -> Result<(), Memory>
    ensures { OnOk result (string_bytes out.new ≡ string_bytes out.old ++ line_text (closing_words closing.now)) }
{
    out.push_str("end")?;
    push_name_field(out, "turns")?;
    push_field(out, u64::from(closing.turns))?;
    push_name_field(out, "lost")?;
    push_field(out, u64::from(closing.lost))?;
    out.push_str("\n")?;
    Ok(())
}

/// Appends a line.
pub fn push_line(out: &mut String, line: &LineRef<'_>) -> Result<(), Memory>
    ensures { OnOk result (string_bytes out.new ≡ string_bytes out.old ++ line_text (line_words (line_in line.now))) }
{
    out.push_str(line_name(line))?;
    push_fields(out, line)?;
    out.push_str("\n")?;
    Ok(())
}

/// The first word of a line.
fn line_name(line: &LineRef<'_>) -> &'static str
    ensures { result.now ≡ line_name (line_in line.now) }
{
    match line {
        LineRef::Reserve { .. } => "reserve",
        LineRef::Tick { .. } => "tick",
        LineRef::Overlay { .. } => "overlay",
        LineRef::Stray { .. } => "stray",
        LineRef::Client { .. } => "client",
        LineRef::Poll { .. } => "poll",
    }
}

/// Appends the words after the first, each after a space.
fn push_fields(out: &mut String, line: &LineRef<'_>) -> Result<(), Memory>
    ensures { OnOk result (string_bytes out.new ≡ string_bytes out.old ++ after_spaces (line_fields (line_in line.now))) }
{
    match line {
        LineRef::Reserve { upto } => push_field(out, *upto),
        LineRef::Tick { now, digest } => {
            push_field(out, *now)?;
            push_hex_field(out, digest.0.as_slice())
        }
        LineRef::Overlay {
            node,
            bytes,
            digest,
        } => {
            push_field(out, u64::from(node.0))?;
            push_hex_field(out, bytes)?;
            push_hex_field(out, digest.0.as_slice())
        }
        LineRef::Stray { port } => push_field(out, u64::from(*port)),
        LineRef::Client {
            port,
            bytes,
            digest,
        } => {
            push_field(out, u64::from(*port))?;
            push_hex_field(out, bytes)?;
            push_hex_field(out, digest.0.as_slice())
        }
        LineRef::Poll { node, digest } => {
            push_field(out, u64::from(node.0))?;
            push_hex_field(out, digest.0.as_slice())
        }
    }
}
