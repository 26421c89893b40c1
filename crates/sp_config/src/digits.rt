// Bytes from lower-case hexadecimal digits (RFC 4648, section 8, in lower case).
ghost use Rattle.std.specs.Prelude.{◌≡◌, ◌==◌, ◌&&◌, IfOk, length, slice_index, true};
ghost use Rattle.std.specs.List.{list_all};
ghost use Rattle.toml.specs.Data.{string};
ghost use Rattle.sp_config.specs.Values.{are_digits, bytes_of, fits, format_said, is_digit, nothing_said};

use crate::keys::Shape;
use hex::FromHexError;
use sp_base::{FORMAT_1, FORMAT_2, Memory};
use std::alloc::Global;

/// Whether a text is the digits of whole bytes.
pub fn are_digits(text: &str) -> bool
    ensures { result ≡ are_digits text.now }
{
    has_digits(text) && text.len() % 2 == 0
}

/// Whether each byte of a text is a digit.
fn has_digits(text: &str) -> bool
    ensures { result ≡ list_all is_digit text.now }
{
    text.as_bytes().iter().all(|byte| is_digit(*byte))
}

fn is_digit(byte: u8) -> bool
    ensures { result ≡ is_digit byte }
{
    matches!(byte, b'0'..=b'9' | b'a'..=b'f')
}

/// The format of a document in digits: that of its fifth byte where it is 2, and else 1.
pub fn format_said(text: &str) -> u8
    ensures { result ≡ format_said text.now }
{
    if are_digits(text) && has_two(text.as_bytes()) {
        FORMAT_2
    } else {
        FORMAT_1
    }
}

/// Whether the ninth and the tenth digit are those of the byte 2.
fn has_two(digits: &[u8]) -> bool
    ensures { result ≡ (slice_index digits.now 8 == 48) && (slice_index digits.now 9 == 50) }
{
    digits.len() > 9 && digits[8] == b'0' && digits[9] == b'2'
}

/// The 32 bytes that 64 digits say.
pub fn seed_of(text: &str) -> [u8; 32]
    requires { fits nothing_said (Shape.Digits 32) (string text.now) ≡ true }
    ensures { result ≡ bytes_of text.now }
{
    let mut bytes = [0; 32];
    fill(text, &mut bytes);
    bytes
}

/// The 60 bytes that 120 digits say.
pub fn key_of(text: &str) -> [u8; 60]
    requires { fits nothing_said (Shape.Digits 60) (string text.now) ≡ true }
    ensures { result ≡ bytes_of text.now }
{
    let mut bytes = [0; 60];
    fill(text, &mut bytes);
    bytes
}

/// Puts the bytes that the digits say in the place of as many others.
fn fill(text: &str, bytes: &mut [u8])
    requires { fits nothing_said (Shape.Digits (length bytes.old)) (string text.now) ≡ true }
    ensures { bytes.new ≡ bytes_of text.now }
{
    let _ = hex::decode_to_slice(text, bytes);
}

/// The bytes that the digits say. Another text says no bytes.
pub fn bytes_of(alloc: Global, text: &str) -> Result<Vec<u8>, Memory>
    ensures { IfOk result (λ bytes. bytes.items ≡ bytes_of text.now) }
{
    match hex::decode(alloc, text) {
        Ok(bytes) => Ok(bytes),
        Err(FromHexError::OutOfMemory) => Err(Memory),
        Err(_) => Ok(Vec::new(alloc)),
    }
}
