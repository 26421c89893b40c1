// A number in a line: its decimal digits, with no sign and no zero in front.
ghost use Rattle.std.specs.Prelude.{ℕ, ◌≡◌, ◌≢◌, ◌<◌, ◌^◌, ◌++◌, ◌↔◌, IfNone, IfSome, IsTrue, OnOk};
ghost use Rattle.std.specs.Fmt.{decimal};
ghost use Rattle.std.specs.String.{string_bytes};
ghost use Rattle.sp_text.specs.Spelling.{IsPadded};

use sp_base::Memory;
use std::fmt::Write;
use std::str;

/// The value of a decimal word below 2^64 without sign or leading zeros.
/// None exactly where the word is no such number.
pub fn number(word: &[u8]) -> Option<u64>
    ensures found { IfSome result (λ n. word.now ≡ decimal n) }
    ensures small { IfSome result (λ n. n < 2 ^ 64) }
    ensures none { IfNone result ((n : ℕ) → n < 2 ^ 64 → word.now ≢ decimal n) }
{
    if is_padded(word) {
        return None;
    }
    let Ok(text) = str::from_utf8(word) else {
        return None;
    };
    text.parse().ok()
}

/// Appends the number in decimal. After an error the text is unspecified.
pub fn push_number(out: &mut String, n: u64) -> Result<(), Memory>
    ensures { OnOk result (string_bytes out.new ≡ string_bytes out.old ++ decimal n) }
{
    write!(out, "{n}").map_err(|_| Memory)
}

/// Whether the word begins with a plus, or with a zero that more follows.
fn is_padded(word: &[u8]) -> bool
    ensures { IsTrue result ↔ IsPadded word.now }
{
    matches!(word, [b'+', ..] | [b'0', _, ..])
}
