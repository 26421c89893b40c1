// One node among all, each by its place.
ghost use Rattle.std.specs.Prelude.{◌≡◌, ◌≤◌, IfOk, OnErr, length, option_map, position};
ghost use Rattle.sp_frame.specs.declared.frame.TheConstants.{MAX_FRAME_BYTES};
ghost use Rattle.sp_runs.specs.Inputs.{acting};
ghost use Rattle.sp_runs.specs.Worlds.{is_me, is_running, node_in, without_node};
ghost use Rattle.sp_frame.specs.declared.sections.TheConstants.{MOST_OBJECTS};
ghost use Rattle.sp_world_steps.specs.Members.{AskedAmong, CanAsk, CanCall, CanReserve, HeardAmong, PolledAmong, ReservedAmong};

use crate::Member;
use sp_base::{Bytes, Memory, NodeId};
use sp_journal::Entry;
use sp_rules::{Step, Taken};
use sp_schedule_events::Event;
use std::alloc::Global;

/// Where a node stands among these.
pub fn place_of(nodes: &[Member], u: NodeId) -> Option<usize>
    ensures { result ≡ position (is_me u) nodes.now }
{
    nodes.iter().position(|member| member.id().0 == u.0)
}

/// Whether the node runs.
pub fn is_running(nodes: &[Member], u: NodeId) -> bool
    ensures { result ≡ is_running nodes.now u }
{
    nodes.iter().any(|member| member.id().0 == u.0)
}

/// The node of this id among these.
pub fn member_of(nodes: &[Member], u: NodeId) -> Option<&Member>
    ensures { option_map (λ m. m.now) result ≡ node_in nodes.now u }
{
    nodes.iter().find(|member| member.id().0 == u.0)
}

/// A client, the clock or the administrator asks something of the node `u`, which acts. A node that is handed a document is handed this one.
#[tactic(auto, using(crate::proofs::Rules::asked))]
pub fn ask(
    alloc: Global,
    nodes: &mut Vec<Member>,
    u: NodeId,
    event: &Event,
    document: &[u8],
) -> Result<Entry, Memory>
    requires acts { u ≡ acting event.now }
    requires can { CanAsk nodes.old.items event.now document.now }
    ensures asked { IfOk result (λ entry. AskedAmong nodes.old.items event.now document.now entry nodes.new.items) }
    ensures as_before { OnErr result (nodes.new.items ≡ nodes.old.items) }
{
    let Some(place) = place_of(nodes, u) else {
        unreachable!()
    };
    let member = &mut nodes[place];
    member.ask(alloc, event, document)
}

/// The node `u` makes its next frame for its neighbour `v`.
#[tactic(auto, using(crate::proofs::Rules::polled))]
pub fn poll(alloc: Global, nodes: &mut Vec<Member>, u: NodeId, v: NodeId) -> Result<Bytes, Memory>
    requires can { CanCall nodes.old.items u v }
    ensures polled { IfOk result (λ bytes. PolledAmong nodes.old.items u v bytes nodes.new.items) }
    ensures long { IfOk result (λ bytes. length bytes ≤ MAX_FRAME_BYTES) }
    ensures as_before { OnErr result (nodes.new.items ≡ nodes.old.items) }
{
    let Some(place) = place_of(nodes, u) else {
        unreachable!()
    };
    let member = &mut nodes[place];
    member.poll(alloc, v)
}

/// The node `v` takes what came from its neighbour `u`.
#[tactic(auto, using(crate::proofs::Rules::heard))]
pub fn hear(
    alloc: Global,
    nodes: &mut Vec<Member>,
    u: NodeId,
    v: NodeId,
    bytes: &[u8],
) -> Result<Step<Taken>, Memory>
    requires can { CanCall nodes.old.items v u }
    ensures heard { IfOk result (λ step. HeardAmong nodes.old.items u v bytes.now step nodes.new.items) }
    ensures few { IfOk result (λ step. length step.reply.items ≤ MOST_OBJECTS) }
    ensures as_before { OnErr result (nodes.new.items ≡ nodes.old.items) }
{
    let Some(place) = place_of(nodes, v) else {
        unreachable!()
    };
    let member = &mut nodes[place];
    member.datagram(alloc, u, bytes)
}

/// The node `u` has the indexes below this bound. It takes no memory.
#[tactic(auto, using(crate::proofs::Rules::reserved))]
pub fn reserve(nodes: &mut Vec<Member>, u: NodeId, upto: u64)
    requires { CanReserve nodes.old.items u upto }
    ensures { ReservedAmong nodes.old.items u upto nodes.new.items }
{
    let Some(place) = place_of(nodes, u) else {
        unreachable!()
    };
    let member = &mut nodes[place];
    member.extend(upto);
}

/// The node is gone, and the others stay. It takes no memory.
#[tactic(auto, using(crate::proofs::Without::removed_at, crate::proofs::Without::none_removed))]
pub fn forget(nodes: &mut Vec<Member>, u: NodeId)
    ensures { nodes.new.items ≡ without_node nodes.old.items u }
{
    if let Some(place) = place_of(nodes, u) {
        drop(nodes.remove(place));
    }
}
