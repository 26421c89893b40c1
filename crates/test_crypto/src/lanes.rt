// SHA-256 of four messages at once, held against published digests in each lane, and against `sha2` in the others.
use hex::FromHex;
use sha2::{Digest, Sha256};
use sp_ots::{LANES, digests, hash_blocks, prefix_digests};
use std::alloc::Global;
use std::test::Fail;

/// Rows of a message of at most 55 bytes and its digest: the example of FIPS 180-4 for one block, and of the values for byte-oriented testing of SHA-256
/// (NIST, CAVS 11.0, short messages) the shortest and the one of 440 bits.
const PUBLISHED: &str = "\
616263|ba7816bf8f01cfea414140de5dae2223b00361a396177a9cb410ff61f20015ad
|e3b0c44298fc1c149afbf4c8996fb92427ae41e4649b934ca495991b7852b855
3ebfb06db8c38d5ba037f1363e118550aad94606e26835a01af05078533cc25f2f39573c04b632f62f68c294ab31f2a3e2a1a0d8c2be51|\
6595a2ef537a69ba8583dfbf7f5bec0ab1f93ce4c8ee1916eff44a93af5749c4";

/// The example of FIPS 180-4 for two blocks, and its digest.
const TWO_BLOCKS: &[u8; 56] = b"abcdbcdecdefdefgefghfghighijhijkijkljklmklmnlmnomnopnopq";

const DIGEST_OF_TWO: &str = "248d6a61d20638b8e5c026930c3e6039a33ce45964ff2167f6ecedd419db06c1";

/// The most bytes of the longer messages: more than three blocks.
const LONG: usize = 200;

/// The one block of a message of at most 55 bytes (FIPS 180-4, section 5.1.1); of a longer one that of its first 55.
fn block(message: &[u8]) -> [u8; 64] {
    let len = message.len().min(55);
    let mut block = [0u8; 64];
    block[..len].copy_from_slice(&message[..len]);
    block[len] = 0x80;
    block[56..].copy_from_slice(&(8 * len as u64).to_be_bytes());
    block
}

/// A message of 55 bytes for a lane.
fn short(lane: usize) -> [u8; 55] {
    let mut message = [0u8; 55];
    for (place, byte) in message.iter_mut().enumerate() {
        *byte = ((55 * (lane % 16) + place % 55) % 251) as u8;
    }
    message
}

/// Whether the lanes have the digest of the message in one of them, and those of the short messages in the others.
fn are_right(hashed: &[[u8; 32]; LANES], lane: usize, digest: &[u8; 32]) -> bool {
    for (other, found) in hashed.iter().enumerate() {
        let right = if other == lane {
            *digest
        } else {
            Sha256::digest(&short(other))
        };
        if *found != right {
            return false;
        }
    }
    true
}

/// Whether the blocks of the message in a lane and of short messages in the others have the right digests.
fn blocks_are_right(message: &[u8], lane: usize, digest: &[u8; 32]) -> bool {
    let mut blocks = [[0u8; 64]; LANES];
    for (other, filled) in blocks.iter_mut().enumerate() {
        *filled = if other == lane {
            block(message)
        } else {
            block(&short(other))
        };
    }
    are_right(&hash_blocks(&blocks), lane, digest)
}

/// The same of messages of 55 bytes.
fn messages_are_right(message: &[u8; 55], lane: usize, digest: &[u8; 32]) -> bool {
    let mut messages = [[0u8; 55]; LANES];
    for (other, filled) in messages.iter_mut().enumerate() {
        *filled = if other == lane {
            *message
        } else {
            short(other)
        };
    }
    are_right(&digests(&messages), lane, digest)
}

/// The message and the digest of a row.
fn published(alloc: Global, row: &str) -> Result<(Vec<u8>, [u8; 32]), Fail> {
    let (message, digest) = row.split_once('|').ok_or("no digest")?;
    Ok((
        hex::decode(alloc, message)?,
        <[u8; 32] as FromHex>::from_hex(digest)?,
    ))
}

#[test]
fn a_published_digest_comes_out_of_each_lane(rt: HostRuntime) -> Result<(), Fail> {
    for row in PUBLISHED.lines() {
        let (message, digest) = published(rt.alloc(), row)?;
        for lane in 0..LANES {
            assert!(rt;
                blocks_are_right(&message, lane, &digest),
                "{row} in lane {lane}"
            );
        }
    }
    Ok(())
}

#[test]
fn a_published_digest_of_55_bytes_comes_out_of_each_lane(rt: HostRuntime) -> Result<(), Fail> {
    let row = PUBLISHED.lines().last().ok_or("no row")?;
    let (message, digest) = published(rt.alloc(), row)?;
    let mut bytes = [0u8; 55];
    assert!(rt; message.len() == 55);
    bytes.copy_from_slice(&message);
    for lane in 0..LANES {
        assert!(rt; messages_are_right(&bytes, lane, &digest), "lane {lane}");
    }
    Ok(())
}

/// A longer message for each lane, all different.
fn long_messages() -> [[u8; LONG]; LANES] {
    let mut messages = [[0u8; LONG]; LANES];
    for (lane, message) in messages.iter_mut().enumerate() {
        for (place, byte) in message.iter_mut().enumerate() {
            *byte = ((89 * (lane % 16) + 7 * (place % LONG)) % 251) as u8;
        }
    }
    messages
}

/// Whether each lane has the digest of so many bytes of its message.
fn prefixes_are_right(messages: &[[u8; LONG]; LANES], len: usize) -> bool {
    let len = len.min(LONG);
    let hashed = prefix_digests(messages, len);
    for (found, message) in hashed.iter().zip(messages) {
        if *found != Sha256::digest(&message[..len]) {
            return false;
        }
    }
    true
}

/// The message begins with the example now.
fn begin_with_two_blocks(message: &mut [u8; LONG]) {
    message[..56].copy_from_slice(TWO_BLOCKS);
}

#[test]
fn a_published_digest_of_two_blocks_comes_out_of_each_lane(rt: HostRuntime) -> Result<(), Fail> {
    let digest = <[u8; 32] as FromHex>::from_hex(DIGEST_OF_TWO)?;
    for lane in 0..LANES {
        let mut messages = long_messages();
        begin_with_two_blocks(&mut messages[lane]);
        assert!(rt;
            prefix_digests(&messages, 56)[lane] == digest,
            "lane {lane}"
        );
        assert!(rt; prefixes_are_right(&messages, 56), "beside lane {lane}");
    }
    Ok(())
}

#[test]
fn messages_of_each_length_are_hashed_as_one_by_one(rt: HostRuntime) {
    let messages = long_messages();
    for len in 0..LONG + 1 {
        assert!(rt; prefixes_are_right(&messages, len), "{len} bytes");
    }
}
