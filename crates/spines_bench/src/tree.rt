// The tree, the leaf and the messages of all measures.

pub const ID: [u8; 16] = [0x11; 16];

pub const SEED: [u8; 32] = [0x22; 32];

pub const LEAF: u32 = 3;

/// Message i: its number and zeros, 32 bytes.
pub fn message(i: u32) -> [u8; 32] {
    let mut bytes = [0u8; 32];
    bytes[..4].copy_from_slice(&i.to_be_bytes());
    bytes
}
