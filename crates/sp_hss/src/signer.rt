// Signing: the trees that are kept, the one that grows, the index that comes next, and the bound that it stops at (RFC 8554, section 6.2).
ghost use Rattle.std.specs.Prelude.{◌≡◌, ◌≢◌, ◌+◌, ◌≤◌, ◌↔◌, IfErr, IfOk, IsErr, OnErr, OnOk, length};
ghost use Rattle.sp_hss.specs.KeyTree.{public_key, signature, signature_len, total};
ghost use Rattle.sp_hss.specs.Validity.{IsValid};

use crate::front::{front_len, go_to, grow_next, sign_next, write_front};
use crate::seed_key::spelled;
use crate::{HssRefused, SeedKey, Tree};
use sp_lms::{GrowingKey, LmsKey, LmsParam};
use sp_ots::OtsParam;
use std::alloc::Global;
use std::marker::Model;

/// A key of two levels that signs each index once, in order, up to a bound.
///
/// A contract sees the seed, the index that comes next, and the bound. All memory is taken by `make`.
#[derive(Drop)]
pub struct Signer {
    height: LmsParam,
    seed: [u8; 32],
    index: u64,
    bound: u64,
    upper: LmsKey,
    lower: LmsKey,
    next: GrowingKey,
    front: Vec<u8>,
}

impl Model for Signer {
    ghost use Rattle.sp_hss.specs.Signer as signer;

    ghost Value = { signer.Signer };

    ghost use Rattle.sp_hss.specs.Kept.{IsKept};

    ghost view = { λ s. record { height = s.height; seed = s.seed; index = s.index; bound = s.bound } };

    ghost invariant = { IsKept };
}

impl Signer {
    /// The signer of a seed for the indexes from `from` up to, and not with, `upto`.
    ///
    /// An index that signs two messages is no longer safe, so no other signer of the seed may have been given any of these.
    /// **A seed has one height for ever.** The ids and seeds of its trees come from the seed and a tree's number alone, so at another height
    /// the same one-time keys sign other messages: the first indexes of both heights have their leaves in common.
    ///
    /// Takes 192 bytes of memory for each leaf of a tree, and a few thousand for the front. Hashes two whole trees, and of the next lower tree as
    /// many leaves as come before that of `from`.
    pub fn make(
        alloc: Global,
        height: LmsParam,
        seed: [u8; 32],
        from: u64,
        upto: u64,
    ) -> Result<Signer, HssRefused>
        requires ordered { from ≤ upto }
        requires within { upto ≤ total height }
        ensures ok { IfOk result (λ signer. signer ≡ record { height = height; seed = seed; index = from; bound = upto }) }
        ensures memory { IfErr result (λ refused. refused ≡ HssRefused.Memory) }
    {
        let key = SeedKey::make(alloc, height, seed)?;
        Signer::of(alloc, key, from, upto)
    }

    /// The signer that the key of a seed becomes, for the indexes from `from` up to, and not with, `upto`: as `make`, but the upper tree is there.
    pub fn of(alloc: Global, key: SeedKey, from: u64, upto: u64) -> Result<Signer, HssRefused>
        requires ordered { from ≤ upto }
        requires within { upto ≤ total key.height }
        ensures ok { IfOk result (λ signer. signer ≡ record { height = key.height; seed = key.seed; index = from; bound = upto }) }
        ensures memory { IfErr result (λ refused. refused ≡ HssRefused.Memory) }
    {
        let SeedKey {
            height,
            seed,
            mut upper,
        } = key;
        let leaves = u64::from(height.leaf_count());
        let tree = (from / leaves).min(leaves - 1) as u32;
        let Ok(mut lower) = Tree::Lower(tree).key(alloc, height, &seed) else {
            return Err(HssRefused::Memory);
        };
        let leaf = (from - u64::from(tree) * leaves) as u32;
        let grown = if u64::from(tree) + 1 < leaves {
            leaf
        } else {
            0
        };
        let Ok(next) = Tree::Lower(tree + 1).growing(alloc, height, &seed, grown) else {
            return Err(HssRefused::Memory);
        };
        let Ok(mut front) = vec![in alloc; 0u8; front_len(height)] else {
            return Err(HssRefused::Memory);
        };
        upper.skip_to(tree);
        write_front(&mut upper, &lower.public(), &mut front);
        lower.skip_to(leaf);
        Ok(Signer {
            height,
            seed,
            index: from,
            bound: upto,
            upper,
            lower,
            next,
            front,
        })
    }

    /// The public key (RFC 8554, section 6.1).
    pub fn public(&self) -> [u8; 60]
        ensures { result ≡ public_key self.now.height self.now.seed }
    {
        spelled(&self.upper.public())
    }

    /// The index of the next signature. None below is used again.
    pub fn index(&self) -> u64
        ensures value { result ≡ self.now.index }
        ensures reserved { result ≤ self.now.bound }
    {
        self.index
    }

    /// The indexes below this one are reserved for the signer.
    pub fn bound(&self) -> u64
        ensures value { result ≡ self.now.bound }
        ensures within { result ≤ total self.now.height }
    {
        self.bound
    }

    /// How many messages the seed may sign, 2^(2h).
    pub fn total(&self) -> u64
        ensures { result ≡ total self.now.height }
    {
        total(self.height)
    }

    /// Reserves the indexes up to, and not with, `upto`.
    pub fn extend(&mut self, upto: u64)
        requires forward { self.old.bound ≤ upto }
        requires within { upto ≤ total self.old.height }
        ensures { self.new ≡ record self.old { bound = upto } }
    {
        self.bound = upto;
    }

    /// The bytes of a signature: 4,756 at height 5 and 5,076 at height 10.
    pub fn signature_len(&self) -> usize
        ensures { result ≡ signature_len self.now.height }
    {
        front_len(self.height) + sp_lms::sig_len(self.height, OtsParam::W4)
    }

    /// Writes the signature of a message into `out`, which has `signature_len` bytes (RFC 8554, section 6.2).
    ///
    /// The index is used then, and the next one comes. After a refusal nothing has changed.
    ///
    /// Each call grows a leaf of the next lower tree, so none waits for a tree: the first by a lower tree signs that tree's key too.
    pub fn sign(&mut self, msg: &[u8], out: &mut [u8]) -> Result<(), HssRefused>
        requires { length out.old ≡ signature_len self.old.height }
        ensures signature { OnOk result (out.new ≡ signature self.old.height self.old.seed self.old.index msg.now) }
        ensures valid { OnOk result (IsValid (public_key self.old.height self.old.seed) msg.now out.new) }
        ensures index { OnOk result (self.new ≡ record self.old { index = self.old.index + 1 }) }

        // At the last index of all it is spent, whatever the bound.
        ensures spent { (result ≡ Err (HssRefused.Spent self.old.index)) ↔ (self.old.index ≡ total self.old.height) }
        ensures not_reserved { (result ≡ Err (HssRefused.NotReserved self.old.bound))
            ↔ ((self.old.index ≢ total self.old.height) × (self.old.index ≡ self.old.bound)) }
        ensures only { IsErr result ↔ (self.old.index ≡ self.old.bound) }
        ensures as_before { OnErr result (self.new ≡ self.old) }
        ensures out_as_before { OnErr result (out.new ≡ out.old) }
    {
        let index = self.index;
        if index == total(self.height) {
            return Err(HssRefused::Spent { index });
        }
        if index == self.bound {
            return Err(HssRefused::NotReserved { bound: index });
        }
        go_to(
            index,
            self.height,
            &self.seed,
            &mut self.upper,
            &mut self.lower,
            &mut self.next,
            &mut self.front,
        );
        let (front, behind) = out.split_at_mut(self.front.len());
        front.copy_from_slice(&self.front);
        sign_next(&mut self.lower, msg, behind);
        grow_next(&self.upper, &mut self.next);
        self.index += 1;
        Ok(())
    }
}

/// How many messages a seed may sign.
fn total(height: LmsParam) -> u64
    ensures { result ≡ total height }
{
    let leaves = u64::from(height.leaf_count());
    leaves * leaves
}
