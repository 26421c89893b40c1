// Each call of a node, with the entry that tells it.
ghost use Rattle.std.specs.Prelude.{◌≡◌, ◌≢◌, ◌≤◌, Err, IfErr, IfOk, None as Nothing, OnErr, Option, Some as There, length, true};
ghost use Rattle.sp_base.specs.declared.limits.TheConstants.{MAX_PAYLOAD_BYTES, MAX_PRIORITY, MAX_WEIGHT};
ghost use Rattle.sp_msg.specs.declared.refused.SendRefused as sends;
ghost use Rattle.sp_frame.specs.declared.frame.TheConstants.{MAX_FRAME_BYTES};
ghost use Rattle.sp_node_format.specs.Format.{format_of};
ghost use Rattle.sp_node_format.specs.PolledFrames.{most_signature};
ghost use Rattle.sp_node_state.specs.Sends.{Sends};
ghost use Rattle.sp_paths.specs.declared.limits.TheConstants.{MAX_PATHS};
ghost use Rattle.sp_rules.specs.Messages.{as_ksend, as_send};
ghost use Rattle.sp_rules.specs.Node.{NodeState, call_refusal};
ghost use Rattle.sp_rules.specs.Parts.{changes};
ghost use Rattle.sp_rules.specs.Steps.{Frame, Input, NodeStep, Poll, Publish, SendKrel, SendPrio, SendRel, SetWeight, TakeKrel, TakePrio, TakeRel, Tick, replied};
ghost use Rattle.sp_node_words.specs.Words.{refused_word};
ghost use Rattle.sp_runs.specs.Journals.{body_word, replaced_word};
ghost use Rattle.sp_frame.specs.declared.sections.TheConstants.{MOST_OBJECTS};
ghost use Rattle.sp_world_steps.specs.Gave.{Gave, GaveTaken, HasWords};

use sp_base::{Bytes, Listed, Memory, NodeId, push_in_room};
use sp_journal::{Entry, Reply};
use sp_msg::{Body, Effect, Kept, Prio, SendRefused, Why};
use sp_node::Node;
use sp_node_words::{quiet, refused_word, tick_word, told};
use sp_rules::{DocumentAnswer, KSend, PrioSend, Step, Taken};
use std::alloc::Global;

/// The entry of a send.
#[tactic(auto, using(crate::proofs::Stepping::gave_by_send))]
fn sent(alloc: Global, done: Result<Step<u64>, SendRefused>) -> Result<Entry, Memory>
    requires words { IfErr done (λ refused. refused ≢ SendRefused.Memory → refused_word refused ≡ Nothing → ⊥) }
    ensures gave { (input : Input) (refusal : Option sends.SendRefused) (old new : NodeState) → Sends input refusal old done new
        → IfOk result (λ entry. Gave old input entry new) }
    ensures memory { OnErr result (done ≡ Err SendRefused.Memory) }
{
    match done {
        Ok(Step { reply, effects }) => Ok(told(Reply::Accepted { seq: reply }, effects)),
        Err(SendRefused::Memory) => Err(Memory),
        Err(refused) => Ok(quiet(alloc, refused_word(refused))),
    }
}

/// A client sends a reliable message.
#[tactic(auto, using(sp_node::proofs::FixedStays::fixed_by_send, crate::proofs::Stepping::memory_by_send, crate::proofs::Stepping::words_by_send))]
pub fn rel(alloc: Global, node: &mut Node, d: NodeId, payload: &[u8]) -> Result<Entry, Memory>
    requires short { length payload.now ≤ MAX_PAYLOAD_BYTES }
    requires words { HasWords node.old.state (SendRel d payload.now) }
    ensures gave { IfOk result (λ entry. Gave node.old.state (SendRel d payload.now) entry node.new.state) }
    ensures as_before { OnErr result (node.new.state ≡ node.old.state) }
    ensures fixed { node.new.state.fixed ≡ node.old.state.fixed }
{
    let done = node.send_rel(alloc, d, payload);
    sent(alloc, done)
}

/// A client sends a priority message.
#[tactic(auto, using(sp_node::proofs::FixedStays::fixed_by_send, crate::proofs::Stepping::memory_by_send, crate::proofs::Stepping::words_by_send))]
pub fn prio(alloc: Global, node: &mut Node, message: &PrioSend<'_>) -> Result<Entry, Memory>
    requires prio { (1 ≤ message.now.prio) × (message.now.prio ≤ MAX_PRIORITY) }
    requires few { message.now.paths ≤ MAX_PATHS }
    requires short { length message.now.payload.now ≤ MAX_PAYLOAD_BYTES }
    requires words { HasWords node.old.state (SendPrio (as_send message.now)) }
    ensures gave { IfOk result (λ entry. Gave node.old.state (SendPrio (as_send message.now)) entry node.new.state) }
    ensures as_before { OnErr result (node.new.state ≡ node.old.state) }
    ensures fixed { node.new.state.fixed ≡ node.old.state.fixed }
{
    let done = node.send_prio(alloc, message);
    sent(alloc, done)
}

/// A client sends a reliable message on paths.
#[tactic(auto, using(sp_node::proofs::FixedStays::fixed_by_send, crate::proofs::Stepping::memory_by_send, crate::proofs::Stepping::words_by_send))]
pub fn krel(alloc: Global, node: &mut Node, message: &KSend<'_>) -> Result<Entry, Memory>
    requires some { 1 ≤ message.now.paths }
    requires few { message.now.paths ≤ MAX_PATHS }
    requires short { length message.now.payload.now ≤ MAX_PAYLOAD_BYTES }
    requires words { HasWords node.old.state (SendKrel (as_ksend message.now)) }
    ensures gave { IfOk result (λ entry. Gave node.old.state (SendKrel (as_ksend message.now)) entry node.new.state) }
    ensures as_before { OnErr result (node.new.state ≡ node.old.state) }
    ensures fixed { node.new.state.fixed ≡ node.old.state.fixed }
{
    let done = node.send_krel(alloc, message);
    sent(alloc, done)
}

/// An administrator sets the weight of a link.
#[tactic(auto, using(sp_node::proofs::FixedStays::fixed_by_send, crate::proofs::Stepping::memory_by_send, crate::proofs::Stepping::words_by_send))]
pub fn weight(alloc: Global, node: &mut Node, v: NodeId, weight: u32) -> Result<Entry, Memory>
    requires least { 1 ≤ weight }
    requires most { weight ≤ MAX_WEIGHT }
    requires words { HasWords node.old.state (SetWeight v weight) }
    ensures gave { IfOk result (λ entry. Gave node.old.state (SetWeight v weight) entry node.new.state) }
    ensures as_before { OnErr result (node.new.state ≡ node.old.state) }
    ensures fixed { node.new.state.fixed ≡ node.old.state.fixed }
{
    let done = node.set_weight(alloc, v, weight);
    sent(alloc, done)
}

/// A client takes the oldest message of the flow from `s`. It takes no memory.
#[tactic(auto, using(sp_node::proofs::FixedStays::fixed_by_take_rel))]
pub fn take(alloc: Global, node: &mut Node, s: NodeId) -> Entry
    ensures gave { Gave node.old.state (TakeRel s) result node.new.state }
    ensures fixed { node.new.state.fixed ≡ node.old.state.fixed }
{
    match node.take_rel(s) {
        Some(payload) => quiet(alloc, Reply::Payload(payload)),
        None => quiet(alloc, Reply::Empty),
    }
}

/// A client takes the oldest message of the flow on paths from `s`. It takes no memory.
#[tactic(auto, using(sp_node::proofs::FixedStays::fixed_by_take_krel))]
pub fn take_krel(alloc: Global, node: &mut Node, s: NodeId) -> Entry
    ensures gave { Gave node.old.state (TakeKrel s) result node.new.state }
    ensures fixed { node.new.state.fixed ≡ node.old.state.fixed }
{
    match node.take_krel(s) {
        Some(payload) => quiet(alloc, Reply::Payload(payload)),
        None => quiet(alloc, Reply::Empty),
    }
}

/// A client takes the oldest priority message. The room for its one effect is taken first.
#[tactic(auto, using(sp_node::proofs::FixedStays::fixed_by_take_prio, crate::proofs::Stepping::words_by_take_prio))]
pub fn take_prio(alloc: Global, node: &mut Node) -> Result<Entry, Memory>
    requires words { HasWords node.old.state TakePrio }
    ensures gave { IfOk result (λ entry. Gave node.old.state TakePrio entry node.new.state) }
    ensures as_before { OnErr result (node.new.state ≡ node.old.state) }
    ensures fixed { node.new.state.fixed ≡ node.old.state.fixed }
{
    let mut effects = Vec::with_capacity(alloc, 1)?;
    let Some(entry) = node.take_prio() else {
        return Ok(quiet(alloc, Reply::Empty));
    };
    let sp_rules::Entry { id, kept } = entry;
    push_in_room(
        &mut effects,
        Effect::Gone {
            place: 0,
            id,
            why: Why::Taken,
        },
    );
    Ok(Entry {
        reply: payload_word(kept),
        effects: Listed::from_vec(effects),
    })
}

/// The words of a priority message that was taken.
fn payload_word(kept: Kept) -> Reply
    requires { body_word kept.body ≡ Nothing → ⊥ }
    ensures { body_word kept.body ≡ There result }
{
    let Kept { body, .. } = kept;
    match body {
        Body::Prio(
            Prio {
                src,
                seq,
                payload,
                ..
            },
        ) => Reply::PayloadPrio { src, seq, payload },
        _ => unreachable!(),
    }
}

/// The clock says so.
#[tactic(auto, using(sp_node::proofs::FixedStays::fixed_by_tick, crate::proofs::Stepping::memory_by_tick))]
pub fn tick(alloc: Global, node: &mut Node, now: u64) -> Result<Entry, Memory>
    ensures gave { IfOk result (λ entry. Gave node.old.state (Tick now) entry node.new.state) }
    ensures as_before { OnErr result (node.new.state ≡ node.old.state) }
    ensures fixed { node.new.state.fixed ≡ node.old.state.fixed }
{
    match node.tick(alloc, now) {
        Ok(Step { reply, effects }) => Ok(told(tick_word(reply), effects)),
        Err(_) => Err(Memory),
    }
}

/// The administrator hands a document to the node.
#[tactic(auto, using(sp_node::proofs::FixedStays::fixed_by_publish, crate::proofs::Stepping::memory_by_publish, crate::proofs::Stepping::words_by_publish))]
pub fn publish(alloc: Global, node: &mut Node, document: &[u8]) -> Result<Entry, Memory>
    requires format { changes node.old.state.fixed ≡ true }
    requires words { HasWords node.old.state (Publish document.now) }
    ensures gave { IfOk result (λ entry. Gave node.old.state (Publish document.now) entry node.new.state) }
    ensures as_before { OnErr result (node.new.state ≡ node.old.state) }
    ensures fixed { node.new.state.fixed ≡ node.old.state.fixed }
{
    match node.replace(alloc, document) {
        Ok(Step { reply, effects }) => Ok(told(replaced_word(reply), effects)),
        Err(_) => Err(Memory),
    }
}

/// The words of the answer to a document that is handed to a node.
fn replaced_word(answer: DocumentAnswer) -> Reply
    requires { replaced_word answer ≡ Nothing → ⊥ }
    ensures { replaced_word answer ≡ There result }
{
    match answer {
        DocumentAnswer::Adopted { version } => Reply::Adopted { version },
        DocumentAnswer::Old { .. } => Reply::DocumentOld,
        _ => unreachable!(),
    }
}

/// The next frame to a neighbour.
#[tactic(auto, using(sp_node::proofs::FixedStays::fixed_by_poll, crate::proofs::Stepping::memory_by_poll, sp_node::proofs::Lengths::polled_is_short))]
pub fn poll(alloc: Global, node: &mut Node, v: NodeId) -> Result<Bytes, Memory>
    requires answered { call_refusal node.old.state v ≡ Nothing }
    requires short { node.old.state.fixed.signature_len ≤ most_signature }
    ensures step { IfOk result (λ bytes. NodeStep (format_of node.old.state.fixed) node.old.state (Poll v) (replied (Frame bytes)) node.new.state) }
    ensures long { IfOk result (λ bytes. length bytes ≤ MAX_FRAME_BYTES) }
    ensures as_before { OnErr result (node.new.state ≡ node.old.state) }
    ensures fixed { node.new.state.fixed ≡ node.old.state.fixed }
{
    node.is_kept();
    match node.poll(alloc, v) {
        Ok(bytes) => Ok(bytes),
        Err(_) => Err(Memory),
    }
}

/// A datagram arrives.
#[tactic(auto, using(sp_node::proofs::FixedStays::fixed_by_datagram, crate::proofs::Stepping::memory_by_datagram))]
pub fn datagram(
    alloc: Global,
    node: &mut Node,
    u: NodeId,
    bytes: &[u8],
) -> Result<Step<Taken>, Memory>
    requires answered { call_refusal node.old.state u ≡ Nothing }
    ensures step { IfOk result (λ step. GaveTaken node.old.state u bytes.now step node.new.state) }
    ensures few { IfOk result (λ step. length step.reply.items ≤ MOST_OBJECTS) }
    ensures as_before { OnErr result (node.new.state ≡ node.old.state) }
    ensures fixed { node.new.state.fixed ≡ node.old.state.fixed }
{
    match node.datagram(alloc, u, bytes) {
        Ok(step) => Ok(step),
        Err(_) => Err(Memory),
    }
}
