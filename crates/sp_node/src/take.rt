// A client takes what waits for it.
ghost use Rattle.std.specs.Prelude.{◌≡◌};
ghost use Rattle.sp_rules.specs.Rel as rel;
ghost use Rattle.sp_rules.specs.KflowSends.{after_take_krel};
ghost use Rattle.sp_rules.specs.Sends.{after_take_prio, after_take_rel};
ghost use Rattle.sp_rules.specs.Store as stores;

use sp_base::{Bytes, NodeId};
use sp_node_state::State;
use sp_rules::Entry;

/// The oldest reliable message from a node, which leaves its inbox.
pub fn take_rel(state: &mut State, src: NodeId) -> Option<Bytes>
    ensures payload { result ≡ rel.oldest state.old.parts.rel src }
    ensures state { state.new ≡ after_take_rel state.old src }
{
    state.core.rel.take(src)
}

/// The oldest message on paths from a node, which leaves its inbox.
pub fn take_krel(state: &mut State, src: NodeId) -> Option<Bytes>
    ensures payload { result ≡ rel.oldest state.old.parts.kflow.flows src }
    ensures state { state.new ≡ after_take_krel state.old src }
{
    state.core.kflow.flows.take(src)
}

/// The oldest priority message, which leaves the inbox.
pub fn take_prio(state: &mut State) -> Option<Entry>
    ensures entry { result ≡ stores.oldest state.old.parts.prio.inbox }
    ensures state { state.new ≡ after_take_prio state.old }
{
    state.core.prio.take()
}
