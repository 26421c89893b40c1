// The hashes that a tree is made of (RFC 8554, section 5.3).
ghost use Rattle.std.specs.Prelude.{◌≡◌, ◌+◌, ◌*◌, ◌^◌, ◌<◌};
ghost use Rattle.sp_lms.specs.Trees.{leaf_hash, inner_hash, above};

use sha2::{Digest, Sha256};
use sp_ots::begun;

/// The number before the one-time public key of a leaf.
const D_LEAF: u16 = 0x8282;

/// The number before the two nodes that stand below another one.
const D_INTR: u16 = 0x8383;

/// The node r of a leaf, from its one-time public key.
#[tactic(auto, unfolding(crate::specs::Trees::leaf_hash))]
pub(crate) fn leaf_hash(id: &[u8; 16], r: u32, key: &[u8; 32]) -> [u8; 32]
    ensures { result ≡ leaf_hash id.now r key.now }
{
    let mut hasher = begun(id, r, D_LEAF);
    hasher.update(key);
    hasher.finalize()
}

/// Node r, from the two that stand below it.
#[tactic(auto, unfolding(crate::specs::Trees::inner_hash))]
pub(crate) fn inner_hash(id: &[u8; 16], r: u32, left: &[u8; 32], right: &[u8; 32]) -> [u8; 32]
    ensures { result ≡ inner_hash id.now r left.now right.now }
{
    let mut hasher = begun(id, r, D_INTR);
    hasher.update(left);
    hasher.update(right);
    hasher.finalize()
}

/// The node above node r, from r and its sibling.
pub(crate) fn above(id: &[u8; 16], r: u32, node: &[u8; 32], other: &[u8; 32]) -> [u8; 32]
    ensures { result ≡ above id.now r node.now other.now }
{
    if r % 2 == 0 {
        inner_hash(id, r / 2, node, other)
    } else {
        inner_hash(id, r / 2, other, node)
    }
}
