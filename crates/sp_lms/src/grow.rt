// Growing the tree of a key: leaf after leaf, each with the nodes that are whole by it.
ghost use Rattle.std.specs.Prelude.{◌≡◌, ◌+◌, ◌^◌, ◌<◌, ◌≤◌, ℕ, List, length};
ghost use Rattle.sp_ots.specs.Lanes.{lanes};
ghost use Rattle.sp_lms.specs.Parameters.{height, leaf_count};
ghost use Rattle.sp_lms.specs.Keys.{seed_leaf};
ghost use Rattle.sp_lms.specs.Nodes.{HasGrown, HasNodes};

use crate::LmsParam;
use crate::hashes::{inner_hash, leaf_hash};
use sp_ots::{LANES, OtsParam, publics};

/// Writes every node of the seed's tree at the place of its number, several leaves at once.
pub(crate) fn grow_all(
    lms: LmsParam,
    ots: OtsParam,
    id: &[u8; 16],
    seed: &[u8; 32],
    nodes: &mut [[u8; 32]],
)
    requires { length nodes.old ≡ 2 ^ (height lms + 1) }
    ensures { HasNodes (height lms) id.now (seed_leaf lms ots id.now seed.now) nodes.new }
{
    'groups: for g in 0..lms.leaf_count() / LANES as u32 {
        grow_group(lms, ots, id, seed, LANES as u32 * g, nodes);
    }
}

/// Writes the nodes of leaf q and the leaves after it, one in each lane, and those above them that have no leaf after these.
fn grow_group(
    lms: LmsParam,
    ots: OtsParam,
    id: &[u8; 16],
    seed: &[u8; 32],
    q: u32,
    nodes: &mut [[u8; 32]],
)
    requires leaf { q + lanes ≤ leaf_count lms }
    requires grown { HasGrown q (height lms) id.now (seed_leaf lms ots id.now seed.now) nodes.old }
    ensures { HasGrown (q + lanes) (height lms) id.now (seed_leaf lms ots id.now seed.now) nodes.new }
{
    let keys = publics(ots, id, q, seed);
    'leaves: for k in 0..LANES {
        let leaf = q + k as u32;
        let node = leaf_hash(id, lms.leaf_count() + leaf, &keys[k]);
        put(lms, id, leaf, &node, nodes);
    }
}

/// Writes the node of leaf q, which is node 2^h + q, and those above it that have no leaf after it.
pub(crate) fn grow(
    lms: LmsParam,
    ots: OtsParam,
    id: &[u8; 16],
    seed: &[u8; 32],
    q: u32,
    nodes: &mut [[u8; 32]],
)
    requires leaf { q < leaf_count lms }
    requires grown { HasGrown q (height lms) id.now (seed_leaf lms ots id.now seed.now) nodes.old }
    ensures { HasGrown (q + 1) (height lms) id.now (seed_leaf lms ots id.now seed.now) nodes.new }
{
    let r = lms.leaf_count() + q;
    let node = leaf_hash(id, r, &sp_ots::public(ots, id, q, seed));
    put(lms, id, q, &node, nodes);
}

/// Writes the node of leaf q, which is given, and those above it that have no leaf after it.
fn put(lms: LmsParam, id: &[u8; 16], q: u32, node: &[u8; 32], nodes: &mut [[u8; 32]])
    requires leaf { q < leaf_count lms }
    requires count { length nodes.old ≡ 2 ^ (height lms + 1) }
    ensures { (leaf : ℕ → List ℕ) → HasGrown q (height lms) id.now leaf nodes.old → node.now ≡ leaf (leaf_count lms + q)
        → HasGrown (q + 1) (height lms) id.now leaf nodes.new }
{
    let mut r = lms.leaf_count() + q;
    nodes[r as usize] = *node;
    'levels: for level in 0..lms.height() {
        if r % 2 == 0 {
            break;
        }
        r /= 2;
        let below = 2 * r as usize;
        nodes[r as usize] = inner_hash(id, r, &nodes[below], &nodes[below + 1]);
    }
}
