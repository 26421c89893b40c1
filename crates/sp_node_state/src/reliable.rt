// A client sends a reliable message.
ghost use Rattle.std.specs.Prelude.{◌≡◌, ◌≢◌, ◌≤◌, IfErr, IfOk, None as Nothing, Some as There, [], ◌∷◌, length};
ghost use Rattle.laws_node.specs.Nodes.{IsKept};
ghost use Rattle.sp_base.specs.declared.limits.TheConstants.{MAX_PAYLOAD_BYTES};
ghost use Rattle.sp_node_format.specs.Format.{format_of};
ghost use Rattle.sp_node_state.specs.Sends.{Sends};
ghost use Rattle.sp_node_state.specs.ReadySends.{IsReadyRel};
ghost use Rattle.sp_rules.specs.Node.{signed_now, signed_once};
ghost use Rattle.sp_rules.specs.Rel.{pushed_in};
ghost use Rattle.sp_rules.specs.Sends.{rel_body, rel_number, rel_refusal, signed_effect};
ghost use Rattle.sp_rules.specs.Steps.{SendRel};

use crate::State;
use sp_base::{Bytes, Flow, Memory, NodeId};
use sp_msg::{Body, Effect, Effects, Rel, SendRefused};
use sp_rel::{RelRefused, Seat};
use sp_rules::Step;
use sp_sign::Blank;
use std::alloc::Global;

/// All that a reliable message needs: itself, the memory of its flow, and room for what it causes.
#[derive(Drop)]
pub struct ReadyRel {
    pub blank: Blank,
    pub seat: Seat,
    pub effects: Effects,
}

/// A message of a client goes onto its flow, signed, under the number after the last.
pub fn send_rel(
    state: &mut State,
    alloc: Global,
    dst: NodeId,
    payload: &[u8],
) -> Result<Step<u64>, SendRefused>
    requires kept { IsKept (format_of state.old.fixed) state.old }
    requires short { length payload.now ≤ MAX_PAYLOAD_BYTES }
    ensures { Sends (SendRel dst payload.now) (rel_refusal state.old dst) state.old result state.new }
{
    let number = rel_number(state, dst)?;
    let Ok(ready) = ready_rel(state, alloc, dst, number, payload) else {
        return Err(SendRefused::Memory);
    };
    let effects = push_rel(state, ready);
    Ok(Step {
        reply: number,
        effects,
    })
}

/// The number of the next message to a node, or why none is taken.
fn rel_number(state: &State, dst: NodeId) -> Result<u64, SendRefused>
    ensures number { IfOk result (λ number. number ≡ rel_number state.entry.now dst) }
    ensures free { IfOk result (λ _. rel_refusal state.entry.now dst ≡ Nothing) }
    ensures refused { IfErr result (λ refused. rel_refusal state.entry.now dst ≡ There refused) }
    ensures no_want { result ≢ Err SendRefused.Memory }
{
    if state.is_unmet(dst) {
        return Err(SendRefused::BadEnd);
    }
    let number = match state.core.rel.room(dst) {
        Ok(number) => number,
        Err(RelRefused::BadEnd) => return Err(SendRefused::BadEnd),
        Err(RelRefused::Full { base, have }) => return Err(SendRefused::Full { base, have }),
        Err(RelRefused::Memory) => unreachable!(),
    };
    match state.signer_refusal() {
        Some(refused) => Err(refused),
        None => Ok(number),
    }
}

/// The message of this number.
fn rel_body(
    state: &State,
    alloc: Global,
    dst: NodeId,
    number: u64,
    payload: &[u8],
) -> Result<Body, Memory>
    requires { number ≡ rel_number state.now dst }
    ensures { IfOk result (λ body. body ≡ rel_body state.entry.now dst payload.now) }
{
    Ok(Body::Rel(Rel {
        src: state.fixed.me,
        dst,
        sboot: state.core.lives.held_boot(state.fixed.me),
        dboot: state.core.lives.held_boot(dst),
        seq: number,
        payload: Bytes::copy(alloc, payload)?,
    }))
}

/// All that the message of this number needs.
fn ready_rel(
    state: &State,
    alloc: Global,
    dst: NodeId,
    number: u64,
    payload: &[u8],
) -> Result<ReadyRel, Memory>
    requires kept { IsKept (format_of state.now.fixed) state.now }
    requires short { length payload.now ≤ MAX_PAYLOAD_BYTES }
    requires free { rel_refusal state.now dst ≡ Nothing }
    requires number { number ≡ rel_number state.now dst }
    ensures ready { IfOk result (IsReadyRel state.entry.now) }
    ensures body { IfOk result (λ ready. ready.blank.kept.body ≡ rel_body state.entry.now dst payload.now) }
{
    let body = rel_body(state, alloc, dst, number, payload)?;
    let blank = state.blank(alloc, body)?;
    let flow = Flow {
        src: state.fixed.me,
        dst,
    };
    let place = state.core.rel.place(flow);
    let Ok(seat) = state.core.rel.seat(alloc, place) else {
        return Err(Memory);
    };
    let Ok(effects) = Effects::with_room(alloc, 1) else {
        return Err(Memory);
    };
    Ok(ReadyRel {
        blank,
        seat,
        effects,
    })
}

/// Signs a message that is ready, and keeps it.
fn push_rel(state: &mut State, ready: ReadyRel) -> Effects
    requires { IsReadyRel state.old ready }
    ensures state { state.new ≡ signed_once state.old
        (record state.old.parts { rel = pushed_in state.old.parts.rel (signed_now (format_of state.old.fixed) state.old ready.blank.kept.body) }) }
    ensures told { result.list ≡ signed_effect (format_of state.old.fixed) ready.blank.kept.body ∷ [] }
{
    let ReadyRel {
        blank,
        seat,
        mut effects,
    } = ready;
    let Blank { kept, bytes } = state.sign(blank);
    effects.push(Effect::Signed(bytes));
    state.core.rel.push(kept, seat);
    effects
}
