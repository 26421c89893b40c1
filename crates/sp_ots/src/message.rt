// The digests of four messages that fill a block each with their padding (FIPS 180-4, section 5.1.1).
ghost use Rattle.std.specs.Prelude.{◌≡◌, map};
ghost use Rattle.sha2.specs.Sha256.{sha256};
ghost use Rattle.sp_ots.specs.Blocks.{block_digest};

use crate::block::hash_blocks;
use crate::words::LANES;

/// What stands after a message of 55 bytes: a bit 1, zeros, and its length of 440 bits in eight bytes.
const PADDING_OF_55: [u8; 9] = [0x80, 0, 0, 0, 0, 0, 0, 0x01, 0xb8];

/// The digest of each message of 55 bytes, the longest that one block holds with its padding.
pub fn digests(messages: &[[u8; 55]; LANES]) -> [[u8; 32]; LANES]
    ensures { result ≡ map sha256 messages.now }
{
    let mut padded_messages = [[0u8; 64]; LANES];
    'fill: for k in 0..LANES {
        padded_messages[k] = padded(&messages[k]);
    }
    hash_blocks(&padded_messages)
}

/// The message and its padding.
#[inline(always)]
fn padded(message: &[u8; 55]) -> [u8; 64]
    ensures { block_digest result ≡ sha256 message.now }
{
    let mut block = [0u8; 64];
    block[..55].copy_from_slice(message);
    block[55..].copy_from_slice(&PADDING_OF_55);
    block
}
