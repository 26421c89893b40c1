// The digests of four messages of one length, whatever it is: block after block, each message in its lane (FIPS 180-4, sections 5.1.1 and 6.2).
ghost use Rattle.std.specs.Prelude.{◌≡◌, ◌+◌, ◌*◌, ◌≤◌, ◌^◌, All, length, map, take};
ghost use Rattle.sha2.specs.Sha256.{padding, sha256};
ghost use Rattle.sp_ots.specs.Blocks.{block_at};

use crate::block::{initial, rows, take_in};
use crate::words::LANES;

/// The most bytes of a padding: a bit 1, zeros, and the length in eight bytes.
const MOST_PADDING: usize = 72;

/// The digest of the first `len` bytes of each message.
pub fn prefix_digests<const N: usize>(messages: &[[u8; N]; LANES], len: usize) -> [[u8; 32]; LANES]
    requires within { len ≤ N }
    requires short { len ≤ 2 ^ 32 }
    ensures { result ≡ map (λ m. sha256 (take len m)) messages.now }
{
    let padding = padding(len);
    let behind = &padding[..padding_len(len)];
    let mut hash = initial();
    'next: for n in 0..(len + behind.len()) / 64 {
        take_in::<false>(&mut hash, &blocks_at(messages, len, behind, n));
    }
    rows(&hash)
}

/// The padding of a message of so many bytes, and zeros behind it (section 5.1.1).
fn padding(len: usize) -> [u8; MOST_PADDING]
    requires { len ≤ 2 ^ 32 }
    ensures { take (length (padding len)) result ≡ padding len }
{
    let mut bytes = [0u8; MOST_PADDING];
    bytes[0] = 0x80;
    let end = padding_len(len);
    bytes[end - 8..end].copy_from_slice(&(8 * len as u64).to_be_bytes());
    bytes
}

/// How many bytes of padding a message of so many bytes has: as many as fill its last block, and nine at least.
fn padding_len(len: usize) -> usize
    ensures { result ≡ length (padding len) }
{
    9 + (119 - len % 64) % 64
}

/// Block n of the first `len` bytes of each message and their padding.
#[inline(always)]
fn blocks_at<const N: usize>(
    messages: &[[u8; N]; LANES],
    len: usize,
    behind: &[u8],
    n: usize,
) -> [[u8; 64]; LANES]
    requires within { len ≤ N }
    requires short { len ≤ 2 ^ 32 }
    requires behind { behind.now ≡ padding len }
    requires block { 64 * n + 64 ≤ len + length behind.now }
    ensures blocks { result ≡ map (λ m. block_at (take len m) n) messages.now }
    ensures long { All (λ m. len ≤ length m) messages.now }
{
    let mut cut = [[0u8; 64]; LANES];
    'lanes: for k in 0..LANES {
        cut[k] = prefix_block(&messages[k], len, behind, n);
    }
    cut
}

/// Block n of the first `len` bytes of a message and their padding.
#[inline(always)]
fn prefix_block<const N: usize>(message: &[u8; N], len: usize, behind: &[u8], n: usize) -> [u8; 64]
    requires within { len ≤ N }
    requires short { len ≤ 2 ^ 32 }
    requires behind { behind.now ≡ padding len }
    requires block { 64 * n + 64 ≤ len + length behind.now }
    ensures block { result ≡ block_at (take len message.now) n }
    ensures long { len ≤ length message.now }
{
    block_at(&message[..len], behind, n)
}

/// Block n of a message and its padding.
#[inline(always)]
fn block_at(message: &[u8], behind: &[u8], n: usize) -> [u8; 64]
    requires short { length message.now ≤ 2 ^ 32 }
    requires behind { behind.now ≡ padding (length message.now) }
    requires block { 64 * n + 64 ≤ length message.now + length behind.now }
    ensures { result ≡ block_at message.now n }
{
    let start = message.len().min(64 * n);
    let end = message.len().min(64 * n + 64);
    let from = (64 * n).saturating_sub(message.len());
    let mut block = [0u8; 64];
    block[..end - start].copy_from_slice(&message[start..end]);
    block[end - start..].copy_from_slice(&behind[from..from + 64 - (end - start)]);
    block
}
