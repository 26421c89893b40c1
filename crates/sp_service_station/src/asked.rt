// What is asked of a node, with the text of what it answers.
ghost use Rattle.std.specs.Prelude.{◌≡◌, ◌≤◌, IfOk, length, map};
ghost use Rattle.sp_client.specs.Tables as tables;
ghost use Rattle.sp_client_node.specs.Steps.{AnswersBy};
ghost use Rattle.sp_node_words.specs.Words.{item_word, link_word};
ghost use Rattle.sp_journal.specs.JournalText.{reply_text};
ghost use Rattle.sp_node_format.specs.PolledFrames.{most_signature};
ghost use Rattle.sp_outside.specs.declared.wire.TheConstants.{DATAGRAM_BYTES};
ghost use Rattle.sp_rules.specs.Steps.{Datagram, Poll, Tick};
ghost use Rattle.sp_service_station.specs.Stations.{Gives, frame_of, indexes_of, reserved};
ghost use Rattle.sp_service_turns.specs.Indexes.{AreReserved, UsesAtMost};
ghost use Rattle.sp_service_station.specs.Texts.{answer_text};

use sp_base::{Bytes, Memory, NodeId};
use sp_client::Clients;
use sp_client_node::LocalNode;
use sp_journal::{Entry, Reply, reply_text};
use sp_node::{Node, NodeRefused};
use sp_node_words::{entry_of, tick_word, told};
use sp_rules::{Step, Taken};
use sp_service_turns::Indexes;
use std::alloc::Global;

/// The text of an entry, as a recording has its digest.
fn text_of(alloc: Global, entry: &Entry) -> Result<Bytes, Memory>
    ensures { IfOk result (λ text. text ≡ reply_text entry.now) }
{
    let text = reply_text(alloc, entry)?;
    Ok(Bytes::from_vec(text.into_bytes()))
}

/// The text of what became of a datagram, and of what that caused.
#[tactic(auto, using(crate::proofs::Entries::same_text))]
fn arrived_text(alloc: Global, step: Step<Taken>) -> Result<Bytes, Memory>
    ensures { IfOk result (λ text. text ≡ reply_text
        (record { reply = Reply.Arrived (link_word step.reply.link) (map item_word step.reply.items); effects = step.effects.list })) }
{
    let entry = entry_of(alloc, step)?;
    text_of(alloc, &entry)
}

/// A client's datagram comes from a port. The answer is the reply.
pub fn request(
    alloc: Global,
    clients: &mut Clients,
    local: &mut LocalNode,
    port: u16,
    bytes: &[u8],
) -> Result<Bytes, Memory>
    ensures uses { IfOk result (λ _. UsesAtMost 1 (indexes_of local.old.node.state) (indexes_of local.new.node.state)) }
    ensures handled { IfOk result (λ reply. tables.Datagram AnswersBy clients.old port bytes.now reply clients.new local.old local.new) }
    ensures within { IfOk result (λ reply. length reply ≤ DATAGRAM_BYTES) }
    ensures fixed { local.new.node.state.fixed ≡ local.old.node.state.fixed }
{
    match clients.datagram(alloc, local, port, bytes) {
        Ok(reply) => Ok(reply),
        Err(_) => Err(Memory),
    }
}

/// How far the node is with the indexes of its signing key.
pub fn indexes(node: &Node) -> Indexes
    ensures value { result ≡ indexes_of node.now.state }
    ensures ordered { result.index ≤ result.bound }
{
    node.is_kept();
    Indexes {
        index: node.index(),
        bound: node.bound(),
        total: node.total(),
    }
}

/// Indexes below this bound may be signed with, where it is one that the signer may have.
#[tactic(auto, using(crate::proofs::Uses::are_reserved))]
pub fn reserve(node: &mut Node, upto: u64)
    ensures reserved { node.new.state ≡ reserved node.old.state upto }
    ensures indexes { AreReserved (indexes_of node.old.state) upto (indexes_of node.new.state) }
    ensures fixed { node.new.state.fixed ≡ node.old.state.fixed }
{
    if node.bound() <= upto && upto <= node.total() {
        node.extend(upto);
    }
}

/// The clock says so. Two acknowledgements are signed at most.
#[tactic(auto, using(sp_node::proofs::FixedStays::fixed_by_tick, crate::proofs::Uses::uses))]
pub fn tick(alloc: Global, node: &mut Node, now: u64) -> Result<Bytes, Memory>
    ensures uses { IfOk result (λ _. UsesAtMost 2 (indexes_of node.old.state) (indexes_of node.new.state)) }
    ensures gives { IfOk result (λ answer. Gives answer_text node.old.state (Tick now) answer node.new.state) }
    ensures fixed { node.new.state.fixed ≡ node.old.state.fixed }
{
    match node.tick(alloc, now) {
        Ok(Step { reply, effects }) => text_of(alloc, &told(tick_word(reply), effects)),
        Err(_) => Err(Memory),
    }
}

/// A datagram comes from a neighbour. A node that it doesn't answer gives nothing.
#[tactic(auto, using(sp_node::proofs::FixedStays::fixed_by_datagram, crate::proofs::Uses::uses))]
pub fn datagram(alloc: Global, node: &mut Node, from: NodeId, bytes: &[u8]) -> Result<Bytes, Memory>
    ensures uses { IfOk result (λ _. UsesAtMost 0 (indexes_of node.old.state) (indexes_of node.new.state)) }
    ensures gives { IfOk result (λ answer. Gives answer_text node.old.state (Datagram from bytes.now) answer node.new.state) }
    ensures fixed { node.new.state.fixed ≡ node.old.state.fixed }
{
    match node.datagram(alloc, from, bytes) {
        Ok(step) => arrived_text(alloc, step),
        Err(NodeRefused::Memory) => Err(Memory),
        Err(_) => Ok(Bytes::from_vec(Vec::new(alloc))),
    }
}

/// The next frame for a neighbour. A node that isn't called gives nothing.
#[tactic(auto, using(sp_node::proofs::FixedStays::fixed_by_poll, crate::proofs::Stays::polled_is_short, crate::proofs::Uses::uses))]
pub fn poll(alloc: Global, node: &mut Node, to: NodeId) -> Result<Bytes, Memory>
    requires { node.old.state.fixed.signature_len ≤ most_signature }
    ensures uses { IfOk result (λ _. UsesAtMost 0 (indexes_of node.old.state) (indexes_of node.new.state)) }
    ensures gives { IfOk result (λ frame. Gives frame_of node.old.state (Poll to) frame node.new.state) }
    ensures within { IfOk result (λ frame. length frame ≤ DATAGRAM_BYTES) }
    ensures fixed { node.new.state.fixed ≡ node.old.state.fixed }
{
    node.is_kept();
    match node.poll(alloc, to) {
        Ok(frame) => Ok(frame),
        Err(NodeRefused::Memory) => Err(Memory),
        Err(_) => Ok(Bytes::from_vec(Vec::new(alloc))),
    }
}
