// The trees of the two levels: each has an id and a seed of its own, which are tags under the signer's seed.
ghost use Rattle.std.specs.Prelude.{◌≡◌, ◌≤◌, [], ◌∷◌, ◌++◌, IfOk, IfErr};
ghost use Rattle.sp_hmac.specs.Hmac.{hmac};
ghost use Rattle.sp_lms.specs.Parameters.{leaf_count};
ghost use Rattle.sp_hss.specs.KeyTree.{name, tree_id, tree_seed};
ghost use Rattle.sp_hss.specs.Tree.{tree_with, tree_growing};

use sp_lms::{GrowingKey, LmsKey, LmsParam, LmsRefused};
use sp_ots::OtsParam;
use std::alloc::Global;

/// A tree of the two levels that a seed gives.
#[derive(Clone, Copy, Debug)]
pub enum Tree {
    /// The tree whose leaves sign the public keys of the lower trees.
    Upper,
    /// The lower tree of this number, whose leaves sign messages.
    Lower(u32),
}

impl Tree {
    /// The key of the tree, none of whose leaves is used.
    pub(crate) fn key(
        self,
        alloc: Global,
        height: LmsParam,
        seed: &[u8; 32],
    ) -> Result<LmsKey, LmsRefused>
        ensures ok { IfOk result (λ key. key ≡ tree_with height seed.now self 0) }
        ensures memory { IfErr result (λ refused. refused ≡ LmsRefused.Memory) }
    {
        LmsKey::make(alloc, height, OtsParam::W4, self.id(seed), self.seed(seed))
    }

    /// The key of the tree while it grows, with its first leaves.
    pub(crate) fn growing(
        self,
        alloc: Global,
        height: LmsParam,
        seed: &[u8; 32],
        leaves: u32,
    ) -> Result<GrowingKey, LmsRefused>
        requires { leaves ≤ leaf_count height }
        ensures ok { IfOk result (λ key. key ≡ tree_growing height seed.now self leaves) }
        ensures memory { IfErr result (λ refused. refused ≡ LmsRefused.Memory) }
    {
        let mut key = GrowingKey::make(
            alloc,
            height,
            OtsParam::W4,
            self.id(seed),
            self.seed(seed),
        )?;
        'leaves: for _ in 0..leaves {
            key.grow();
        }
        Ok(key)
    }

    /// The id of the tree: I (RFC 8554, section 5.3).
    #[tactic(auto, unfolding(crate::specs::KeyTree::tree_id))]
    pub(crate) fn id(self, seed: &[u8; 32]) -> [u8; 16]
        ensures { result ≡ tree_id seed.now self }
    {
        let mut id = [0u8; 16];
        id.copy_from_slice(&self.tag(seed, b'I')[..16]);
        id
    }

    /// The seed of the tree.
    #[tactic(auto, unfolding(crate::specs::KeyTree::tree_seed))]
    pub(crate) fn seed(self, seed: &[u8; 32]) -> [u8; 32]
        ensures { result ≡ tree_seed seed.now self }
    {
        self.tag(seed, b'S')
    }

    /// The tag of a letter and the tree's name.
    fn tag(self, seed: &[u8; 32], letter: u8) -> [u8; 32]
        ensures { result ≡ hmac seed.now (letter ∷ [] ++ name self) }
    {
        match self {
            Tree::Upper => sp_hmac::tag(seed, &[letter], &[0]),
            Tree::Lower(number) => {
                let mut name = [1u8; 5];
                name[1..].copy_from_slice(&number.to_be_bytes());
                sp_hmac::tag(seed, &[letter], &name)
            }
        }
    }
}
