// What every signature by a lower tree begins with: the tree's public key, signed by the upper tree (RFC 8554, section 6.2).
ghost use Rattle.std.specs.Prelude.{◌≡◌, ◌+◌, ◌-◌, ◌/◌, ◌<◌, ◌++◌, length};
ghost use Rattle.sp_ots.specs.declared.param.OtsParam.{OtsParam};
ghost use Rattle.sp_ots.specs.Strings.{u32str};
ghost use Rattle.sp_lms.specs.Keys as keys;
ghost use Rattle.sp_lms.specs.Parameters as lms;
ghost use Rattle.sp_hss.specs.At.{AreAt};
ghost use Rattle.sp_hss.specs.KeyTree.{front_of, front_len, total};
ghost use Rattle.sp_hss.specs.Tree.{tree_with, tree_growing};

use crate::Tree;
use crate::check::TREE_KEY_LEN;
use sp_lms::{GrowingKey, LmsKey, LmsParam};
use sp_ots::OtsParam;

/// The bytes that every signature begins with.
pub(crate) fn front_len(height: LmsParam) -> usize
    ensures { result ≡ front_len height }
{
    4 + sp_lms::sig_len(height, OtsParam::W4) + TREE_KEY_LEN
}

/// Goes on to the next lower tree where the index belongs to it.
pub(crate) fn go_to(
    index: u64,
    height: LmsParam,
    seed: &[u8; 32],
    upper: &mut LmsKey,
    lower: &mut LmsKey,
    next: &mut GrowingKey,
    front: &mut [u8],
)
    requires at { AreAt height seed.now (upper.old.used - 1) index upper.old lower.old next.old front.old }
    requires left { index < total height }
    requires room { length front.old ≡ front_len height }
    ensures { AreAt height seed.now (index / lms.leaf_count height) index upper.new lower.new next.new front.new }
{
    if index / u64::from(height.leaf_count()) == u64::from(upper.used()) {
        next_tree(seed, upper, lower, next, front);
    }
}

/// Goes on to the lower tree whose number the upper tree's next leaf has, which is grown, writes what its signatures begin with,
/// and begins the tree after it.
fn next_tree(
    seed: &[u8; 32],
    upper: &mut LmsKey,
    lower: &mut LmsKey,
    next: &mut GrowingKey,
    front: &mut [u8],
)
    requires upper { upper.old ≡ tree_with upper.old.lms seed.now Tree.Upper upper.old.used }
    requires lower { lower.old.lms ≡ upper.old.lms }
    requires digits { lower.old.ots ≡ OtsParam.W4 }
    requires next { next.old ≡ tree_growing upper.old.lms seed.now (Tree.Lower upper.old.used) (lms.leaf_count upper.old.lms) }
    requires left { upper.old.used < lms.leaf_count upper.old.lms }
    requires room { length front.old ≡ front_len upper.old.lms }
    ensures upper { upper.new ≡ record upper.old { used = upper.old.used + 1 } }
    ensures lower { lower.new ≡ tree_with upper.old.lms seed.now (Tree.Lower upper.old.used) 0 }
    ensures next { next.new ≡ tree_growing upper.old.lms seed.now (Tree.Lower (upper.old.used + 1)) 0 }
    ensures front { front.new ≡ front_of upper.old.lms seed.now upper.old.used }
{
    let after = Tree::Lower(upper.used() + 1);
    next.replace(lower, after.id(seed), after.seed(seed));
    write_front(upper, &lower.public(), front);
}

/// Grows a leaf of the next lower tree, if there is a next one.
pub(crate) fn grow_next(upper: &LmsKey, next: &mut GrowingKey)
    requires { upper.now.used < lms.leaf_count upper.now.lms → next.old.grown < lms.leaf_count next.old.lms }
    ensures some { upper.now.used < lms.leaf_count upper.now.lms → next.new ≡ record next.old { grown = next.old.grown + 1 } }
    ensures none { upper.now.used ≡ lms.leaf_count upper.now.lms → next.new ≡ next.old }
{
    if upper.used() < upper.total() {
        next.grow();
    }
}

/// Writes one level less than two, the signature of a lower tree's key, and the key.
pub(crate) fn write_front(upper: &mut LmsKey, lower_key: &[u8; 56], front: &mut [u8])
    requires left { upper.old.used < lms.leaf_count upper.old.lms }
    requires room { length front.old ≡ 4 + lms.signature_len upper.old.lms upper.old.ots + 56 }
    ensures front { front.new ≡ u32str 1
        ++ keys.signature upper.old.lms upper.old.ots upper.old.id upper.old.seed upper.old.used lower_key.now ++ lower_key.now }
    ensures upper { upper.new ≡ record upper.old { used = upper.old.used + 1 } }
{
    let behind = 4 + upper.signature_len();
    front[..4].copy_from_slice(&1u32.to_be_bytes());
    sign_next(upper, lower_key, &mut front[4..behind]);
    front[behind..].copy_from_slice(lower_key);
}

/// Signs by the next leaf of a tree that has one left.
pub(crate) fn sign_next(key: &mut LmsKey, msg: &[u8], out: &mut [u8])
    requires left { key.old.used < lms.leaf_count key.old.lms }
    requires room { length out.old ≡ lms.signature_len key.old.lms key.old.ots }
    ensures signature { out.new ≡ keys.signature key.old.lms key.old.ots key.old.id key.old.seed key.old.used msg.now }
    ensures used { key.new ≡ record key.old { used = key.old.used + 1 } }
{
    match key.sign(msg, out) {
        Ok(()) => {}
        Err(_) => unreachable!(),
    }
}
