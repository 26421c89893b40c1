// Bytes in a line: two digits for each (RFC 4648, section 8, in lower case), and a dash for none.
ghost use Rattle.std.specs.Prelude.{ℕ, ◌≡◌, ◌≢◌, ◌<◌, ◌≤◌, ◌++◌, ◌*◌, ◌%◌, List, length, slice_index, take, true, IfNone, IfOk, IfSome, OnOk};
ghost use Rattle.std.specs.Char.{is_ascii_uppercase};
ghost use Rattle.std.specs.List.{list_all, list_any};
ghost use Rattle.std.specs.String.{string_bytes};
ghost use Rattle.hex.specs.Hex.{encode_lower, lower_digits};
ghost use Rattle.sp_base.specs.Spelling.{AreBytes};
ghost use Rattle.sp_text.specs.Spelling.{hex_word, is_digit};
ghost use Rattle.sp_text.specs.Texts.{ReadsHex};
ghost use Rattle.sp_text.specs.declared.hex_word.TheConstants.{PIECE_BYTES};

use crate::{At, TextRefused};
use hex::FromHex;
use sp_base::{Bytes, Memory};
use std::alloc::Global;
use std::str;

/// How many bytes are spelled at once.
const PIECE_BYTES: usize = 256;

/// The bytes of a word in lower-case hexadecimal, or no bytes for a dash.
/// `BadHex` at the place given exactly where the word is neither: upper case is refused, and so is the empty word.
pub fn hex_bytes(alloc: Global, word: &[u8], at: At) -> Result<Bytes, TextRefused>
    ensures { ReadsHex word.now at result }
{
    hex_word_bytes(alloc, word)?.ok_or(TextRefused::BadHex(at))
}

/// The same without a place: none exactly where `hex_bytes` answers `BadHex`.
pub fn hex_word_bytes(alloc: Global, word: &[u8]) -> Result<Option<Bytes>, Memory>
    ensures found { IfOk result (λ o. IfSome o (λ bytes. word.now ≡ hex_word bytes)) }
    ensures bytes { IfOk result (λ o. IfSome o AreBytes) }
    ensures none { IfOk result (λ o. IfNone o ((bytes : List ℕ) → AreBytes bytes → word.now ≢ hex_word bytes)) }
{
    if word == b"-".as_slice() {
        return Ok(Some(Bytes::from_vec(Vec::new(alloc))));
    }
    if word.is_empty() || word.len() % 2 != 0 || !are_digits(word) {
        return Ok(None);
    }
    Ok(Some(Bytes::from_vec(of_pairs(alloc, word)?)))
}

/// Whether each byte is a digit. All are looked at, whatever they are: so the processor has no branch to guess.
fn are_digits(word: &[u8]) -> bool
    ensures { result ≡ list_all is_digit word.now }
{
    let mut all = true;
    'bytes: for byte in word {
        all &= is_digit(*byte);
    }
    all
}

/// Whether the byte is a digit in lower case.
fn is_digit(byte: u8) -> bool
    ensures { result ≡ is_digit byte }
{
    matches!(byte, b'0'..=b'9' | b'a'..=b'f')
}

/// The bytes whose digits these are.
fn of_pairs(alloc: Global, digits: &[u8]) -> Result<Vec<u8>, Memory>
    requires even { length digits.now % 2 ≡ 0 }
    requires digits { list_all is_digit digits.now ≡ true }
    ensures spelled { IfOk result (λ bytes. encode_lower bytes.items ≡ digits.now) }
    ensures bytes { IfOk result (λ bytes. AreBytes bytes.items) }
{
    let mut bytes = vec![in alloc; 0u8; digits.len() / 2]?;
    'pairs: for place in 0..bytes.len() {
        bytes[place] = value(digits[2 * place]) * 16 + value(digits[2 * place + 1]);
    }
    Ok(bytes)
}

/// The value of a digit: its last four bits, which count the letters from 1, and 9 more for a letter, which alone isn't below 64. It has no branch.
fn value(digit: u8) -> u8
    requires { is_digit digit ≡ true }
    ensures spelled { slice_index lower_digits result ≡ digit }
    ensures small { result < 16 }
{
    digit % 16 + 9 * (digit / 64)
}

/// The 32 bytes of 64 lower-case digits. None exactly where the word isn't so.
pub fn hex_array(word: &[u8]) -> Option<[u8; 32]>
    ensures found { IfSome result (λ bytes. word.now ≡ encode_lower bytes) }
    ensures bytes { IfSome result AreBytes }
    ensures none { IfNone result ((bytes : List ℕ) → AreBytes bytes → length bytes ≡ 32 → word.now ≢ encode_lower bytes) }
{
    if has_capital(word) {
        return None;
    }
    FromHex::from_hex(word).ok()
}

/// Appends the bytes in lower-case hexadecimal, or a dash for none. After an error the text is unspecified.
pub fn push_hex(out: &mut String, bytes: &[u8]) -> Result<(), Memory>
    ensures { OnOk result (string_bytes out.new ≡ string_bytes out.old ++ hex_word bytes.now) }
{
    if bytes.is_empty() {
        return Ok(out.push('-')?);
    }
    'pieces: for piece in bytes.chunks(PIECE_BYTES) {
        push_piece(out, piece)?;
    }
    Ok(())
}

/// Appends the digits of a piece at once. After an error the text is unspecified.
fn push_piece(out: &mut String, piece: &[u8]) -> Result<(), Memory>
    requires { length piece.now ≤ PIECE_BYTES }
    ensures { OnOk result (string_bytes out.new ≡ string_bytes out.old ++ encode_lower piece.now) }
{
    let mut digits = [0u8; 2 * PIECE_BYTES];
    write_digits(&mut digits, piece);
    let Ok(text) = str::from_utf8(&digits[..2 * piece.len()]) else {
        unreachable!()
    };
    out.push_str(text)?;
    Ok(())
}

/// Writes the two digits of each byte.
fn write_digits(digits: &mut [u8; 2 * PIECE_BYTES], piece: &[u8])
    requires { length piece.now ≤ PIECE_BYTES }
    ensures { take (2 * length piece.now) digits.new ≡ encode_lower piece.now }
{
    'bytes: for place in 0..piece.len() {
        digits[2 * place] = digit(piece[place] / 16);
        digits[2 * place + 1] = digit(piece[place] % 16);
    }
}

/// Whether a letter of the word is a capital.
fn has_capital(word: &[u8]) -> bool
    ensures { result ≡ list_any is_ascii_uppercase word.now }
{
    word.iter().any(|byte| byte.is_ascii_uppercase())
}

/// The digit of a value below 16: the letters stand 39 above what would follow the nine. It has no branch.
fn digit(value: u8) -> u8
    requires { value < 16 }
    ensures { result ≡ slice_index lower_digits value }
{
    b'0' + value + 39 * u8::from(9 < value)
}
