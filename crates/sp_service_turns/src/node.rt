// A node, as its daemon and a verifier see it.
ghost use Rattle.std.specs.Prelude.{◌≡◌, ◌≤◌, [], List, ℕ, IfOk, length};
ghost use Rattle.sp_outside.specs.declared.wire.TheConstants.{DATAGRAM_BYTES};
ghost use Rattle.sp_service_turns.specs.Indexes.{AreReserved, UsesAtMost};
ghost use Rattle.sp_service_turns.specs.Inputs.{Datagram, Input, Poll, Request, Reserve, Tick};

use crate::indexes::Indexes;
use sp_base::{Bytes, Memory, NodeId};
use std::alloc::Global;

/// A node with its clients. Each call is a step of a relation that the node names, or finds no memory.
pub trait Core {
    ghost use Rattle.sp_service_turns.specs.declared.indexes.Indexes.{Indexes};

    /// The steps that there may be: from a state, on what is asked, with what is answered, to a state.
    ghost steps: { Self → Input → List ℕ → Self → Type 0 };

    /// How far it is with the indexes of its signing key.
    ghost indexes: { Self → Indexes };

    /// How far it is with the indexes of its signing key.
    fn indexes(&self) -> Indexes
        ensures value { result ≡ indexes self.now }
        ensures ordered { result.index ≤ result.bound };

    /// Indexes below this bound may be signed with from now on.
    fn reserve(&mut self, upto: u64)
        ensures step { steps self.old (Reserve upto) [] self.new }
        ensures reserved { AreReserved (indexes self.old) upto (indexes self.new) };

    /// The clock was read. The answer is the text of the reply and its effects. It signs two acknowledgements at most.
    fn tick(&mut self, alloc: Global, now: u64) -> Result<Bytes, Memory>
        ensures step { IfOk result (λ answer. steps self.old (Tick now) answer self.new) }
        ensures uses { IfOk result (λ _. UsesAtMost 2 (indexes self.old) (indexes self.new)) };

    /// A datagram came from a neighbour. The answer is the text of the reply and its effects.
    fn datagram(&mut self, alloc: Global, node: NodeId, bytes: &[u8]) -> Result<Bytes, Memory>
        ensures step { IfOk result (λ answer. steps self.old (Datagram node bytes.now) answer self.new) }
        ensures uses { IfOk result (λ _. UsesAtMost 0 (indexes self.old) (indexes self.new)) };

    /// A request came from a client's port. The answer is the datagram of the reply.
    fn request(&mut self, alloc: Global, port: u16, bytes: &[u8]) -> Result<Bytes, Memory>
        ensures step { IfOk result (λ answer. steps self.old (Request port bytes.now) answer self.new) }
        ensures uses { IfOk result (λ _. UsesAtMost 1 (indexes self.old) (indexes self.new)) }
        ensures within { IfOk result (λ answer. length answer ≤ DATAGRAM_BYTES) };

    /// A neighbour is polled. The answer is the frame for it.
    fn poll(&mut self, alloc: Global, node: NodeId) -> Result<Bytes, Memory>
        ensures step { IfOk result (λ answer. steps self.old (Poll node) answer self.new) }
        ensures uses { IfOk result (λ _. UsesAtMost 0 (indexes self.old) (indexes self.new)) }
        ensures within { IfOk result (λ answer. length answer ≤ DATAGRAM_BYTES) };
}
