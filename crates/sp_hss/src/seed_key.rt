// The key of a seed before it signs: the upper tree alone, hashed once for the public key and for the signer.
ghost use Rattle.std.specs.Prelude.{◌≡◌, ◌++◌, IfErr, IfOk};
ghost use Rattle.sp_ots.specs.Strings.{u32str};
ghost use Rattle.sp_hss.specs.KeyTree.{public_key};

use crate::{HssRefused, Tree};
use sp_lms::{LmsKey, LmsParam};
use std::alloc::Global;
use std::marker::Model;

/// The key of two levels that a seed has, before it signs: it gives the public key, and `Signer::of` makes it a signer.
///
/// A contract sees the height and the seed.
#[derive(Drop)]
pub struct SeedKey {
    pub(crate) height: LmsParam,
    pub(crate) seed: [u8; 32],
    pub(crate) upper: LmsKey,
}

impl Model for SeedKey {
    ghost use Rattle.std.specs.Prelude.{◌≡◌};
    ghost use Rattle.sp_hss.specs.SeedKey as seed_key;
    ghost use Rattle.sp_hss.specs.Tree.{tree_with};
    ghost use Rattle.sp_hss.specs.declared.tree.Tree.TheVariants.{Upper};

    ghost Value = { seed_key.SeedKey };

    ghost view = { λ k. record { height = k.height; seed = k.seed } };

    ghost invariant = { λ k. k.upper ≡ tree_with k.height k.seed Upper 0 };
}

impl SeedKey {
    /// The key of a seed of this height. It costs one tree. Only want of memory refuses.
    pub fn make(alloc: Global, height: LmsParam, seed: [u8; 32]) -> Result<SeedKey, HssRefused>
        ensures key { IfOk result (λ key. key ≡ record { height = height; seed = seed }) }
        ensures memory { IfErr result (λ refused. refused ≡ HssRefused.Memory) }
    {
        let Ok(upper) = Tree::Upper.key(alloc, height, &seed) else {
            return Err(HssRefused::Memory);
        };
        Ok(SeedKey {
            height,
            seed,
            upper,
        })
    }

    /// The same key once more, without a hash. The signers that the two become never share an index: one that signs two messages is no longer safe.
    pub fn copied(&self, alloc: Global) -> Result<SeedKey, HssRefused>
        ensures key { IfOk result (λ key. key ≡ self.now) }
        ensures memory { IfErr result (λ refused. refused ≡ HssRefused.Memory) }
    {
        let Ok(upper) = self.upper.copied(alloc) else {
            return Err(HssRefused::Memory);
        };
        Ok(SeedKey {
            height: self.height,
            seed: self.seed,
            upper,
        })
    }

    /// The public key (RFC 8554, section 6.1).
    #[tactic(auto, unfolding(crate::specs::KeyTree::public_key))]
    pub fn public(&self) -> [u8; 60]
        ensures { result ≡ public_key self.now.height self.now.seed }
    {
        spelled(&self.upper.public())
    }
}

/// The public key of two levels that a seed of this height has (RFC 8554, section 6.1). It costs one tree.
/// Only want of memory refuses.
pub fn public_key(alloc: Global, height: LmsParam, seed: &[u8; 32]) -> Result<[u8; 60], HssRefused>
    ensures key { IfOk result (λ key. key ≡ public_key height seed.now) }
    ensures memory { IfErr result (λ refused. refused ≡ HssRefused.Memory) }
{
    let key = SeedKey::make(alloc, height, *seed)?;
    Ok(key.public())
}

/// The number of levels, and the public key of the upper tree.
pub(crate) fn spelled(upper: &[u8; 56]) -> [u8; 60]
    ensures { result ≡ u32str 2 ++ upper.now }
{
    let mut public = [0u8; 60];
    public[..4].copy_from_slice(&2u32.to_be_bytes());
    public[4..].copy_from_slice(upper);
    public
}
