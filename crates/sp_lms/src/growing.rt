// A key whose tree grows while another one signs, and takes its place when it is whole.
ghost use Rattle.std.specs.Prelude.{◌≡◌, ◌+◌, ◌<◌, ◌≤◌, IfErr, IfOk};
ghost use Rattle.sp_lms.specs.Parameters.{leaf_count};

use crate::grow::grow;
use crate::{LmsKey, LmsParam, LmsRefused};
use sp_ots::OtsParam;
use std::alloc::Global;
use std::marker::Model;
use std::mem::swap;

/// A key whose tree grows leaf by leaf, and signs nothing before it is whole.
///
/// A contract sees what makes the key, and how many leaves are grown. All memory is taken by `make`.
#[derive(Drop)]
pub struct GrowingKey {
    lms: LmsParam,
    ots: OtsParam,
    id: [u8; 16],
    seed: [u8; 32],
    grown: u32,
    nodes: Vec<[u8; 32]>,
}

impl Model for GrowingKey {
    ghost use Rattle.sp_lms.specs.Growing.{Growing};

    ghost Value = { Growing };

    ghost use Rattle.sp_lms.specs.Grown.{IsGrown};

    ghost view = { λ k. record { lms = k.lms; ots = k.ots; id = k.id; seed = k.seed; grown = k.grown } };

    ghost invariant = { IsGrown };
}

impl GrowingKey {
    /// The key of a seed for the tree with this id, of which no leaf is grown yet.
    ///
    /// An id belongs to one key: one seed, one height and one w, as with `LmsKey::make`.
    /// Takes 64 bytes of memory for each leaf, and hashes nothing.
    pub fn make(
        alloc: Global,
        lms: LmsParam,
        ots: OtsParam,
        id: [u8; 16],
        seed: [u8; 32],
    ) -> Result<GrowingKey, LmsRefused>
        ensures ok { IfOk result (λ key. key ≡ record { lms = lms; ots = ots; id = id; seed = seed; grown = 0 }) }
        ensures memory { IfErr result (λ refused. refused ≡ LmsRefused.Memory) }
    {
        let nodes = vec![in alloc; [0u8; 32]; 2 << lms.height()]?;
        Ok(GrowingKey {
            lms,
            ots,
            id,
            seed,
            grown: 0,
            nodes,
        })
    }

    /// How many leaves are grown.
    pub fn grown(&self) -> u32
        ensures value { result ≡ self.now.grown }
        ensures within { result ≤ leaf_count self.now.lms }
    {
        self.grown
    }

    /// Grows the next leaf, and each node that is whole by it: one one-time key, and at most h + 1 hashes of nodes.
    pub fn grow(&mut self)
        requires { self.old.grown < leaf_count self.old.lms }
        ensures { self.new ≡ record self.old { grown = self.old.grown + 1 } }
    {
        grow(
            self.lms,
            self.ots,
            &self.id,
            &self.seed,
            self.grown,
            &mut self.nodes,
        );
        self.grown += 1;
    }

    /// Puts the key, whose tree is whole, in the place of another one, and begins the tree of a seed and an id in the memory of that one.
    ///
    /// Hashes nothing. A leaf that signs two messages is no longer safe: where the key was made before, `LmsKey::skip_to` gives up
    /// what it has used. The id belongs to one key, as with `make`.
    pub fn replace(&mut self, key: &mut LmsKey, id: [u8; 16], seed: [u8; 32])
        requires { self.old.grown ≡ leaf_count self.old.lms }
        ensures key { key.new ≡ record { lms = self.old.lms; ots = self.old.ots; id = self.old.id; seed = self.old.seed; used = 0 } }
        ensures begun { self.new ≡ record { lms = key.old.lms; ots = key.old.ots; id = id; seed = seed; grown = 0 } }
    {
        swap(&mut self.lms, &mut key.lms);
        swap(&mut self.ots, &mut key.ots);
        swap(&mut self.nodes, &mut key.nodes);
        key.id = self.id;
        key.seed = self.seed;
        key.used = 0;
        self.id = id;
        self.seed = seed;
        self.grown = 0;
    }
}
