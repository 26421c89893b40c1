// Fields of a line, written one after the other. After an error the text is unspecified.
ghost use Rattle.std.specs.Prelude.{◌≡◌, ◌++◌, ◌∷◌, OnOk};
ghost use Rattle.std.specs.Fmt.{decimal};
ghost use Rattle.std.specs.String.{string_bytes};
ghost use Rattle.sp_text.specs.Spelling.{hex_word};
ghost use Rattle.sp_lines.specs.Cells.{mask_word};

use byteorder::{BigEndian, ByteOrder};
use sp_base::{FORMAT_1, Memory};
use sp_text::{push_hex, push_number};

/// Appends a space and a number.
pub fn push_field(out: &mut String, n: u64) -> Result<(), Memory>
    ensures { OnOk result (string_bytes out.new ≡ string_bytes out.old ++ (32 ∷ decimal n)) }
{
    out.push(' ')?;
    push_number(out, n)
}

/// Appends a space and a name.
pub fn push_name_field(out: &mut String, name: &str) -> Result<(), Memory>
    ensures { OnOk result (string_bytes out.new ≡ string_bytes out.old ++ (32 ∷ name.now)) }
{
    out.push(' ')?;
    out.push_str(name)?;
    Ok(())
}

/// Appends a space and bytes.
pub fn push_hex_field(out: &mut String, bytes: &[u8]) -> Result<(), Memory>
    ensures { OnOk result (string_bytes out.new ≡ string_bytes out.old ++ (32 ∷ hex_word bytes.now)) }
{
    out.push(' ')?;
    push_hex(out, bytes)
}

/// Appends a space and a set of edges of a format, by its halves.
#[tactic(auto, unfolding(crate::specs::Cells::mask_word))]
pub fn push_mask_field(out: &mut String, format: u8, high: u128, low: u128) -> Result<(), Memory>
    ensures { OnOk result (string_bytes out.new ≡ string_bytes out.old ++ (32 ∷ mask_word format (high, low))) }
{
    let mut bytes = [0u8; 32];
    let (first, second) = bytes.split_at_mut(16);
    BigEndian::write_u128(first, high);
    BigEndian::write_u128(second, low);
    if format == FORMAT_1 {
        return push_hex_field(out, second);
    }
    push_hex_field(out, bytes.as_slice())
}
