// What stands in one place of a line, each kind of place by its own call.
ghost use Rattle.std.specs.Prelude.{◌≡◌, ◌≤◌, IfOk, length};
ghost use Rattle.sp_base.specs.Refusals.{Gives};
ghost use Rattle.sp_lines.specs.Answers.{Found, Reads};
ghost use Rattle.sp_lines.specs.Cells.{bytes_at, bytes_of, mask_at, narrow_mask_at, number_at, number_of, same, wide_mask_at};

use crate::{Fault, LineRefused};
use byteorder::{BigEndian, ByteOrder};
use sp_base::{Bytes, FORMAT_1, MAX_EDGES, Memory};
use sp_text::{hex_word_bytes, number};
use std::alloc::Global;

/// Whether the word is this one.
pub fn named(word: &[u8], name: &[u8]) -> bool
    ensures { result ≡ same word.now name.now }
{
    word == name
}

/// The number that a word spells.
pub(crate) fn number_of(word: &[u8]) -> Option<u64>
    ensures { result ≡ number_of word.now }
{
    number(word)
}

/// A number from `low` to `high`.
#[tactic(auto, unfolding(crate::specs::Cells::number_at))]
pub fn ranged(word: &[u8], low: u64, high: u64) -> Result<u64, Fault>
    ensures read { Gives (λ n. n) result (number_at low high word.now) }
    ensures within { IfOk result (λ n. (low ≤ n) × (n ≤ high)) }
{
    let Some(n) = number_of(word) else {
        return Err(Fault::Number);
    };
    if n < low || high < n {
        return Err(Fault::Range);
    }
    Ok(n)
}

/// The bytes that a word spells.
fn bytes_of(alloc: Global, word: &[u8]) -> Result<Option<Bytes>, Memory>
    ensures { Found result (bytes_of word.now) }
{
    hex_word_bytes(alloc, word)
}

/// From `least` to `most` bytes.
#[tactic(auto, unfolding(crate::specs::Cells::bytes_at))]
pub fn bytes(alloc: Global, word: &[u8], least: usize, most: usize) -> Result<Bytes, LineRefused>
    ensures read { Reads result (bytes_at least most word.now) }
    ensures within { IfOk result (λ bs. (least ≤ length bs) × (length bs ≤ most)) }
{
    let Some(bytes) = bytes_of(alloc, word)? else {
        return Err(LineRefused::Bad(Fault::Hex));
    };
    let count = bytes.as_slice().len();
    if count < least || most < count {
        return Err(LineRefused::Bad(Fault::Range));
    }
    Ok(bytes)
}

/// A set of edges of a format: its high half and its low half.
#[tactic(auto, unfolding(crate::specs::Cells::mask_at))]
pub fn mask(alloc: Global, word: &[u8], format: u8) -> Result<(u128, u128), LineRefused>
    ensures { Reads result (mask_at format word.now) }
{
    if format == FORMAT_1 {
        return narrow_mask(alloc, word);
    }
    wide_mask(alloc, word)
}

/// The same of format 1, which has no high half.
#[tactic(auto, unfolding(crate::specs::Cells::narrow_mask_at))]
fn narrow_mask(alloc: Global, word: &[u8]) -> Result<(u128, u128), LineRefused>
    ensures { Reads result (narrow_mask_at word.now) }
{
    let bytes = bytes(alloc, word, 16, 16)?;
    let low = BigEndian::read_u128(bytes.as_slice());
    if low >= 1 << MAX_EDGES {
        return Err(LineRefused::Bad(Fault::Range));
    }
    Ok((0, low))
}

/// The same of format 2.
#[tactic(auto, unfolding(crate::specs::Cells::wide_mask_at))]
fn wide_mask(alloc: Global, word: &[u8]) -> Result<(u128, u128), LineRefused>
    ensures { Reads result (wide_mask_at word.now) }
{
    let bytes = digest(alloc, word)?;
    let (high, low) = bytes.split_at(16);
    Ok((BigEndian::read_u128(high), BigEndian::read_u128(low)))
}

/// Exactly 32 bytes.
pub fn digest(alloc: Global, word: &[u8]) -> Result<[u8; 32], LineRefused>
    ensures { Reads result (bytes_at 32 32 word.now) }
{
    let bytes = bytes(alloc, word, 32, 32)?;
    let mut digest = [0u8; 32];
    digest.copy_from_slice(bytes.as_slice());
    Ok(digest)
}
