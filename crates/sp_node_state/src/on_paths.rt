// A client sends a message on paths.
ghost use Rattle.std.specs.Prelude.{◌≡◌, ◌≢◌, ◌≤◌, IfErr, IfOk, None as Nothing, Some as There, Ok, [], ◌∷◌, length};
ghost use Rattle.laws_node.specs.Nodes.{IsKept};
ghost use Rattle.laws_node.specs.Withdrawals.{Obeys};
ghost use Rattle.sp_base.specs.declared.limits.TheConstants.{MAX_PAYLOAD_BYTES};
ghost use Rattle.sp_node_format.specs.Format.{format_of};
ghost use Rattle.sp_node_state.specs.OnPaths.{IsKrelMask, IsMaskTo, IsReadyKrel};
ghost use Rattle.sp_node_state.specs.Sends.{Sends};
ghost use Rattle.sp_paths.specs.declared.limits.TheConstants.{MAX_PATHS};
ghost use Rattle.sp_rel.specs.Seated.{IsSeated};
ghost use Rattle.sp_rules.specs.Kflow.{pushed, room, waiting_mask};
ghost use Rattle.sp_rules.specs.KflowSends.{krel_body, krel_number, krel_refusal};
ghost use Rattle.sp_rules.specs.Messages.{as_ksend};
ghost use Rattle.sp_rules.specs.Node.{signed_now, signed_once};
ghost use Rattle.sp_rules.specs.Sends.{signed_effect};
ghost use Rattle.sp_rules.specs.Steps.{SendKrel};

use crate::State;
use crate::priority::choose;
use sp_base::{Bytes, Flow, Memory, NodeId};
use sp_kflow::Seat;
use sp_msg::{Body, Effect, Effects, Krel, Mask, SendRefused};
use sp_routes::{NoMask, PathBook};
use sp_rules::{KRoom, KSend, Step};
use sp_sign::Blank;
use std::alloc::Global;

/// All that a message on paths needs: itself, the memory of its flow, and room for what it causes.
#[derive(Drop)]
pub struct ReadyKrel {
    pub blank: Blank,
    pub seat: Seat,
    pub effects: Effects,
}

/// A message of a client goes onto its flow, signed, under the number after the last, over the mask of the messages that wait. Where none waits its paths are
/// those of the book, which searches for them where the weights in effect changed.
pub fn send_krel(
    state: &mut State,
    book: &mut PathBook,
    alloc: Global,
    message: &KSend<'_>,
) -> Result<Step<u64>, SendRefused>
    requires kept { IsKept (format_of state.old.fixed) state.old }
    requires obeys { Obeys state.old }
    requires short { length message.now.payload.now ≤ MAX_PAYLOAD_BYTES }
    requires few { message.now.paths ≤ MAX_PATHS }
    ensures { Sends (SendKrel (as_ksend message.now)) (krel_refusal state.old (as_ksend message.now)) state.old result state.new }
{
    let place = place_for(state, message)?;
    let mask = mask_for(state, book, alloc, message, place.mask)?;
    let Ok(ready) = ready_krel(state, alloc, message, place.seq, mask) else {
        return Err(SendRefused::Memory);
    };
    let effects = push_krel(state, ready, message.paths);
    Ok(Step {
        reply: place.seq,
        effects,
    })
}

/// The number of the next message to a node on so many paths, with the mask that stays, or why none is taken.
fn place_for(state: &State, message: &KSend<'_>) -> Result<KRoom, SendRefused>
    ensures place { IfOk result (λ place. room state.entry.now.parts.kflow message.now.dst message.now.paths ≡ Ok place) }
    ensures free { IfOk result (λ _. krel_refusal state.entry.now (as_ksend message.now) ≡ Nothing) }
    ensures refused { IfErr result (λ refused. krel_refusal state.entry.now (as_ksend message.now) ≡ There refused) }
    ensures no_want { result ≢ Err SendRefused.Memory }
{
    if !state.changes() || state.is_unmet(message.dst) {
        return Err(SendRefused::BadEnd);
    }
    let place = state.core.kflow.room(message.dst, message.paths)?;
    match state.signer_refusal() {
        Some(refused) => Err(refused),
        None => Ok(place),
    }
}

/// The edges that the message takes: those of the messages that wait, or where none waits those of paths.
fn mask_for(
    state: &State,
    book: &mut PathBook,
    alloc: Global,
    message: &KSend<'_>,
    waiting: Option<Mask>,
) -> Result<Mask, SendRefused>
    requires kept { IsKept (format_of state.now.fixed) state.now }
    requires obeys { Obeys state.now }
    requires few { message.now.paths ≤ MAX_PATHS }
    requires free { krel_refusal state.now (as_ksend message.now) ≡ Nothing }
    requires waiting { waiting ≡ waiting_mask state.now.parts.kflow message.now.dst }
    ensures { IsKrelMask state.entry.now (as_ksend message.now) result }
{
    if let Some(mask) = waiting {
        return Ok(mask);
    }
    match choose(
        book,
        alloc,
        &state.fixed,
        &state.core,
        message.dst,
        message.paths,
    ) {
        Ok(mask) => Ok(mask),
        Err(NoMask::Fewer { found }) => Err(SendRefused::NoPaths { found }),
        Err(NoMask::Memory) => Err(SendRefused::Memory),
    }
}

/// The message of this number over these edges.
fn krel_body(
    state: &State,
    alloc: Global,
    message: &KSend<'_>,
    number: u64,
    mask: Mask,
) -> Result<Body, Memory>
    requires { number ≡ krel_number state.now message.now.dst }
    ensures { IfOk result (λ body. body ≡ krel_body state.entry.now (as_ksend message.now) mask) }
{
    Ok(Body::Krel(Krel {
        src: state.fixed.me,
        dst: message.dst,
        sboot: state.core.lives.held_boot(state.fixed.me),
        dboot: state.core.lives.held_boot(message.dst),
        seq: number,
        mask,
        payload: Bytes::copy(alloc, message.payload)?,
    }))
}

/// All that the message of this number over these edges needs.
fn ready_krel(
    state: &State,
    alloc: Global,
    message: &KSend<'_>,
    number: u64,
    mask: Mask,
) -> Result<ReadyKrel, Memory>
    requires kept { IsKept (format_of state.now.fixed) state.now }
    requires short { length message.now.payload.now ≤ MAX_PAYLOAD_BYTES }
    requires free { krel_refusal state.now (as_ksend message.now) ≡ Nothing }
    requires number { number ≡ krel_number state.now message.now.dst }
    requires mask { IsMaskTo (waiting_mask state.now.parts.kflow message.now.dst) state.now (as_ksend message.now) mask }
    ensures ready { IfOk result (IsReadyKrel state.entry.now message.now.paths) }
    ensures body { IfOk result (λ ready. ready.blank.kept.body ≡ krel_body state.entry.now (as_ksend message.now) mask) }
{
    let body = krel_body(state, alloc, message, number, mask)?;
    let blank = state.blank(alloc, body)?;
    let seat = seat_to(state, alloc, message.dst)?;
    let Ok(effects) = Effects::with_room(alloc, 1) else {
        return Err(Memory);
    };
    Ok(ReadyKrel {
        blank,
        seat,
        effects,
    })
}

/// The memory of the flow to a node.
fn seat_to(state: &State, alloc: Global, dst: NodeId) -> Result<Seat, Memory>
    ensures { IfOk result (IsSeated state.entry.now.parts.kflow.flows (record { src = state.entry.now.fixed.me; dst = dst })) }
{
    let flows = &state.core.kflow.flows;
    let flow = Flow {
        src: state.fixed.me,
        dst,
    };
    match flows.seat(alloc, flows.place(flow)) {
        Ok(seat) => Ok(seat),
        Err(_) => Err(Memory),
    }
}

/// Signs a message that is ready, and keeps it with its number of paths.
fn push_krel(state: &mut State, ready: ReadyKrel, count: u8) -> Effects
    requires { IsReadyKrel state.old count ready }
    ensures state { state.new ≡ signed_once state.old
        (record state.old.parts { kflow = pushed state.old.parts.kflow (signed_now (format_of state.old.fixed) state.old ready.blank.kept.body) count }) }
    ensures told { result.list ≡ signed_effect (format_of state.old.fixed) ready.blank.kept.body ∷ [] }
{
    let ReadyKrel {
        blank,
        seat,
        mut effects,
    } = ready;
    let Blank { kept, bytes } = state.sign(blank);
    effects.push(Effect::Signed(bytes));
    state.core.kflow.push(kept, count, seat);
    effects
}
