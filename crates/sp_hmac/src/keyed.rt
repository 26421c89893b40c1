// A key whose two blocks are hashed once, for the many tags that are made under it.
ghost use Rattle.std.specs.Prelude.{◌≡◌, ℕ, List, ◌++◌, ◌↔◌, IsTrue};
ghost use Rattle.sp_hmac.specs.Hmac.{changed, key_block, hmac};
ghost use Rattle.sp_hmac.specs.Keyed.{HoldsKey};

use crate::same::is_same;
use sha2::{Digest, Sha256};

/// The bytes of a block of SHA-256.
const BLOCK_LEN: usize = 64;

/// What changes the key's block before the inner hash, and before the outer one (RFC 2104, section 2).
const INNER_PAD: u8 = 0x36;

const OUTER_PAD: u8 = 0x5c;

/// A key, ready for tags: a tag hashes the message and one digest, and neither of the key's blocks again.
///
/// The key itself isn't kept. A contract says of which key the tags are, as the contracts of `sha2` say which message a hasher holds.
#[derive(Drop)]
pub struct Keyed {
    inner: Sha256,
    outer: Sha256,
}

impl Keyed {
    /// The key of these bytes, of any number.
    pub fn new(key: &[u8]) -> Keyed
        ensures { HoldsKey result key.now }
    {
        let block = key_block(key);
        Keyed {
            inner: Sha256::new_with_prefix(changed(INNER_PAD, &block)),
            outer: Sha256::new_with_prefix(changed(OUTER_PAD, &block)),
        }
    }

    /// The tag of `a` followed by `b`.
    #[tactic(auto, unfolding(crate::specs::Hmac::block_hmac))]
    pub fn tag(&self, a: &[u8], b: &[u8]) -> [u8; 32]
        ensures { (key : List ℕ) → HoldsKey self.now key → result ≡ hmac key (a.now ++ b.now) }
    {
        let mut inner = self.inner.clone().unwrap();
        inner.update(a);
        inner.update(b);
        let digest = inner.finalize();
        let mut outer = self.outer.clone().unwrap();
        outer.update(digest);
        outer.finalize()
    }

    /// Whether this is the tag of `a` followed by `b`, all 32 bytes of it.
    pub fn verify(&self, a: &[u8], b: &[u8], tag: &[u8]) -> bool
        ensures { (key : List ℕ) → HoldsKey self.now key → IsTrue result ↔ (tag.now ≡ hmac key (a.now ++ b.now)) }
    {
        is_same(tag, &self.tag(a, b))
    }
}

/// The key as one block (RFC 2104, section 2, step 1).
fn key_block(key: &[u8]) -> [u8; 64]
    ensures { result ≡ key_block key.now }
{
    let mut block = [0u8; BLOCK_LEN];
    if key.len() <= BLOCK_LEN {
        block[..key.len()].copy_from_slice(key);
    } else {
        let digest = Sha256::digest(key);
        block[..digest.len()].copy_from_slice(&digest);
    }
    block
}

/// The block with each byte changed by exclusive or.
fn changed(pad: u8, block: &[u8; 64]) -> [u8; 64]
    ensures { result ≡ changed pad block.now }
{
    let mut changed = *block;
    'bytes: for byte in changed.iter_mut() {
        *byte ^= pad;
    }
    changed
}
