// A signing key: its tree is kept, so a signature hashes no node again.
ghost use Rattle.std.specs.Prelude.{◌≡◌, ◌+◌, ◌*◌, ◌↔◌, ◌<◌, ◌≤◌, IfErr, IfOk, IsErr, OnErr, OnOk, length, take};
ghost use Rattle.sp_lms.specs.Parameters.{height, leaf_count, signature_len};
ghost use Rattle.sp_lms.specs.Trees.{path};
ghost use Rattle.sp_lms.specs.Keys.{public_key, seed_leaf, signature};
ghost use Rattle.sp_lms.specs.Validity.{IsValid};

use crate::grow::grow_all;
use crate::param::MOST_LEVELS;
use crate::path::sibling;
use crate::public_key::spelled;
use crate::{LmsParam, LmsRefused, sig_len};
use sp_ots::OtsParam;
use std::alloc::Global;
use std::marker::Model;

/// A key that signs one message with each leaf of a tree, in the order of the leaves.
///
/// A contract sees what made the key, and how many of its leaves are used. All memory is taken by `make`.
#[derive(Drop)]
pub struct LmsKey {
    pub(crate) lms: LmsParam,
    pub(crate) ots: OtsParam,
    pub(crate) id: [u8; 16],
    pub(crate) seed: [u8; 32],
    pub(crate) used: u32,
    pub(crate) nodes: Vec<[u8; 32]>,
}

impl Model for LmsKey {
    ghost use Rattle.sp_lms.specs.Key.{Key};

    ghost Value = { Key };

    ghost use Rattle.sp_lms.specs.Kept.{IsKept};

    ghost view = { λ k. record { lms = k.lms; ots = k.ots; id = k.id; seed = k.seed; used = k.used } };

    ghost invariant = { IsKept };
}

impl LmsKey {
    /// The key of a seed for the tree with this id, none of whose leaves is used.
    ///
    /// A leaf that signs two messages is no longer safe: where the key was made before, `skip_to` gives up what it has used.
    /// An id belongs to one key: one seed, one height and one w. The one-time keys come from the id, the seed and a leaf's number alone, so
    /// the same id and seed at another height are the same one-time keys.
    ///
    /// Takes 64 bytes of memory for each leaf, and hashes the whole tree.
    pub fn make(
        alloc: Global,
        lms: LmsParam,
        ots: OtsParam,
        id: [u8; 16],
        seed: [u8; 32],
    ) -> Result<LmsKey, LmsRefused>
        ensures ok { IfOk result (λ key. key ≡ record { lms = lms; ots = ots; id = id; seed = seed; used = 0 }) }
        ensures memory { IfErr result (λ refused. refused ≡ LmsRefused.Memory) }
    {
        let mut nodes = vec![in alloc; [0u8; 32]; 2 << lms.height()]?;
        grow_all(lms, ots, &id, &seed, &mut nodes);
        Ok(LmsKey {
            lms,
            ots,
            id,
            seed,
            used: 0,
            nodes,
        })
    }

    /// The same key once more, without a hash. A leaf that signs a message with each of the two is no longer safe.
    pub fn copied(&self, alloc: Global) -> Result<LmsKey, LmsRefused>
        ensures ok { IfOk result (λ key. key ≡ self.now) }
        ensures memory { IfErr result (λ refused. refused ≡ LmsRefused.Memory) }
    {
        let nodes = Vec::from_slice(alloc, self.nodes.as_slice())?;
        Ok(LmsKey {
            lms: self.lms,
            ots: self.ots,
            id: self.id,
            seed: self.seed,
            used: self.used,
            nodes,
        })
    }

    /// Becomes the key of another seed and id, none of whose leaves is used. Takes no memory.
    ///
    /// Where that key was made before, `skip_to` gives up what it has used, as with `make`. The id belongs to that key alone, as with `make`.
    pub fn remake(&mut self, id: [u8; 16], seed: [u8; 32])
        ensures { self.new ≡ record { lms = self.old.lms; ots = self.old.ots; id = id; seed = seed; used = 0 } }
    {
        grow_all(self.lms, self.ots, &id, &seed, &mut self.nodes);
        self.id = id;
        self.seed = seed;
        self.used = 0;
    }

    /// Gives up the leaves below q, which sign nothing from now on.
    pub fn skip_to(&mut self, q: u32)
        requires forward { self.old.used ≤ q }
        requires within { q ≤ leaf_count self.old.lms }
        ensures { self.new ≡ record self.old { used = q } }
    {
        self.used = q;
    }

    /// How many leaves are used: the number of the one that signs next.
    pub fn used(&self) -> u32
        ensures value { result ≡ self.now.used }
        ensures within { result ≤ leaf_count self.now.lms }
    {
        self.used
    }

    /// How many messages the key signs in all, 2^h.
    pub fn total(&self) -> u32
        ensures { result ≡ leaf_count self.now.lms }
    {
        self.lms.leaf_count()
    }

    /// The bytes of a signature.
    pub fn signature_len(&self) -> usize
        ensures { result ≡ signature_len self.now.lms self.now.ots }
    {
        sig_len(self.lms, self.ots)
    }

    /// The public key (RFC 8554, section 5.3).
    pub fn public(&self) -> [u8; 56]
        ensures { result ≡ public_key self.now.lms self.now.ots self.now.id self.now.seed }
    {
        spelled(self.lms, self.ots, &self.id, &self.nodes[1])
    }

    /// Writes the signature of a message into `out`, which has `signature_len` bytes (RFC 8554, section 5.4.1).
    ///
    /// The next leaf signs, and is used then. Where no leaf is left, nothing changes.
    pub fn sign(&mut self, msg: &[u8], out: &mut [u8]) -> Result<(), LmsRefused>
        requires { length out.old ≡ signature_len self.old.lms self.old.ots }
        ensures signature { OnOk result (out.new ≡ signature self.old.lms self.old.ots self.old.id self.old.seed self.old.used msg.now) }
        ensures valid { OnOk result (IsValid (public_key self.old.lms self.old.ots self.old.id self.old.seed) msg.now out.new) }
        ensures used { OnOk result (self.new ≡ record self.old { used = self.old.used + 1 }) }

        ensures spent { IsErr result ↔ (self.old.used ≡ leaf_count self.old.lms) }
        ensures only_spent { IfErr result (λ refused. refused ≡ LmsRefused.Spent) }
        ensures as_before { OnErr result (self.new ≡ self.old) }
        ensures out_as_before { OnErr result (out.new ≡ out.old) }
    {
        let q = self.used;
        if q == self.lms.leaf_count() {
            return Err(LmsRefused::Spent);
        }
        self.write_signature(q, msg, out);
        self.used += 1;
        Ok(())
    }

    /// Writes the signature of a message by leaf q.
    fn write_signature(&self, q: u32, msg: &[u8], out: &mut [u8])
        requires leaf { q < leaf_count self.now.lms }
        requires room { length out.old ≡ signature_len self.now.lms self.now.ots }
        ensures { out.new ≡ signature self.now.lms self.now.ots self.now.id self.now.seed q msg.now }
    {
        let behind = 4 + sp_ots::sig_len(self.ots);
        out[..4].copy_from_slice(&q.to_be_bytes());
        sp_ots::sign(self.ots, &self.id, q, &self.seed, msg, &mut out[4..behind]);
        out[behind..behind + 4].copy_from_slice(&self.lms.typecode().to_be_bytes());
        let path = self.path(self.lms.leaf_count() + q);
        out[behind + 4..].copy_from_slice(path[..self.lms.height()].as_flattened());
    }

    /// The siblings of node r, which is a leaf's, and of those above it, and zeros after them.
    fn path(&self, r: u32) -> [[u8; 32]; MOST_LEVELS]
        requires low { leaf_count self.now.lms ≤ r }
        requires high { r < 2 * leaf_count self.now.lms }
        ensures { take (height self.now.lms) result ≡ path self.now.id (seed_leaf self.now.lms self.now.ots self.now.id self.now.seed) (height self.now.lms) r }
    {
        let mut path = [[0u8; 32]; MOST_LEVELS];
        let mut number = r;
        'levels: for level in 0..self.lms.height() {
            path[level] = self.nodes[sibling(number) as usize];
            number /= 2;
        }
        path
    }
}
