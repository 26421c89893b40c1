// A client sends a priority message.
ghost use Rattle.std.specs.Prelude.{ℕ, ◌≡◌, ◌≢◌, ◌≤◌, ◌<◌, ◌+◌, ◌*◌, ◌^◌, ◌==◌, ◌&&◌, not, All, IfErr, IfOk, None as Nothing, Some as There, Ok, ◌∷◌, length};
ghost use Rattle.std.specs.Prelude.{true};
ghost use Rattle.sp_base.specs.declared.limits.TheConstants.{MAX_WEIGHT};
ghost use Rattle.laws_node.specs.Inputs.{PrioSendFits};
ghost use Rattle.laws_node.specs.Nodes.{IsKept};
ghost use Rattle.laws_node.specs.Withdrawals.{Obeys};
ghost use Rattle.sp_node_format.specs.Format.{format_of};
ghost use Rattle.sp_routes.specs.Fewer.{SaysFewer};
ghost use Rattle.sp_msg.specs.Masks.{bits};
ghost use Rattle.sp_node_state.specs.Sends.{Sends};
ghost use Rattle.sp_rules.specs.Messages.{as_send};
ghost use Rattle.sp_node_state.specs.ReadySends.{IsMaskFor, IsReadyPrio};
ghost use Rattle.sp_paths.specs.declared.limits.TheConstants.{MAX_PATHS};
ghost use Rattle.sp_prio.specs.Spare.{IsSpareFor};
ghost use Rattle.sp_rules.specs.Masks.{IsChoice, Mask as Over, graph_of};
ghost use Rattle.sp_rules.specs.Node.{signed_now, signed_once};
ghost use Rattle.sp_rules.specs.Parts.{nodes_of};
ghost use Rattle.sp_rules.specs.Prio.{admit_prio, is_node, is_there, places, prio_effects};
ghost use Rattle.sp_rules.specs.Sends.{prio_body, prio_refusal, signed_effect};
ghost use Rattle.sp_rules.specs.Steps.{SendPrio};
ghost use Rattle.sp_rules.specs.Told.{told};
ghost use Rattle.sp_rules.specs.Weights.{effective};
ghost use Rattle.sp_rules.specs.Changes.{FitsAFormat};
ghost use Rattle.sp_rules.specs.Topologies.{IsRunnable};

use crate::State;
use sp_base::{Bytes, Memory, NodeId};
use sp_msg::{Body, Effect, Effects, Kept, Mask, Prio, SendRefused};
use sp_node_parts::{Fixed, Parts};
use sp_prio::Spare;
use sp_routes::{NoMask, PathBook, mask_to};
use sp_rules::{PrioSend, Step};
use sp_sign::Blank;
use std::alloc::Global;

/// All that a priority message needs: itself, a copy for each further place that it goes into, and room for what it causes.
#[derive(Drop)]
pub struct ReadyPrio {
    pub blank: Blank,
    pub spare: Spare,
    pub effects: Effects,
}

/// A message of a client is signed and goes into its places, under the number of this node's next priority message. Its paths are those of the book,
/// which searches for them where the weights in effect changed.
pub fn send_prio(
    state: &mut State,
    book: &mut PathBook,
    alloc: Global,
    message: &PrioSend<'_>,
) -> Result<Step<u64>, SendRefused>
    requires kept { IsKept (format_of state.old.fixed) state.old }
    requires obeys { Obeys state.old }
    requires fits { PrioSendFits (as_send message.now) }
    requires few { message.now.paths ≤ MAX_PATHS }
    ensures { Sends (SendPrio (as_send message.now)) (prio_refusal state.old (as_send message.now)) state.old result state.new }
{
    may_send(state, message)?;
    let mask = mask_for(state, book, alloc, message)?;
    let Ok(ready) = ready_prio(state, alloc, message, mask) else {
        return Err(SendRefused::Memory);
    };
    let number = next_number(state);
    let effects = admit_own(state, ready);
    Ok(Step {
        reply: number,
        effects,
    })
}

/// Why the message isn't sent, but for its paths.
fn may_send(state: &State, message: &PrioSend<'_>) -> Result<(), SendRefused>
    ensures free { IfOk result (λ _. prio_refusal state.entry.now (as_send message.now) ≡ Nothing) }
    ensures refused { IfErr result (λ refused. prio_refusal state.entry.now (as_send message.now) ≡ There refused) }
    ensures no_want { result ≢ Err SendRefused.Memory }
{
    if !are_ends(state, message.dst) || state.is_unmet(message.dst) {
        return Err(SendRefused::BadEnd);
    }
    if message.expiry < state.now {
        return Err(SendRefused::Expired { now: state.now });
    }
    match state.signer_refusal() {
        Some(refused) => Err(refused),
        None => Ok(()),
    }
}

/// Whether this is another node, and neither it nor this one is removed.
fn are_ends(state: &State, dst: NodeId) -> bool
    ensures { result ≡ (not (dst.0 == state.entry.now.fixed.me.0)
        && is_there state.entry.now.parts.prio dst.0 && is_there state.entry.now.parts.prio state.entry.now.fixed.me.0) }
{
    let prio = &state.core.prio;
    dst.0 != state.fixed.me.0 && prio.is_there(dst) && prio.is_there(state.fixed.me)
}

/// The edges that the message takes.
fn mask_for(
    state: &State,
    book: &mut PathBook,
    alloc: Global,
    message: &PrioSend<'_>,
) -> Result<Mask, SendRefused>
    requires kept { IsKept (format_of state.now.fixed) state.now }
    requires obeys { Obeys state.now }
    requires few { message.now.paths ≤ MAX_PATHS }
    requires free { prio_refusal state.now (as_send message.now) ≡ Nothing }
    ensures { IsMaskFor state.entry.now (as_send message.now) result }
{
    match choose(
        book,
        alloc,
        &state.fixed,
        &state.core,
        message.dst,
        message.paths,
    ) {
        Ok(mask) => Ok(mask),
        Err(NoMask::Fewer { found }) => Err(SendRefused::NoPaths { found }),
        Err(NoMask::Memory) => Err(SendRefused::Memory),
    }
}

/// The number of the next own priority message.
fn next_number(state: &State) -> u64
    ensures { result ≡ state.entry.now.parts.prio.next }
{
    state.core.prio.next_seq()
}

/// The message that takes these edges.
#[tactic(auto, using(sp_msg::proofs::HalfLemmas::mask_back))]
fn prio_body(
    state: &State,
    alloc: Global,
    message: &PrioSend<'_>,
    mask: Mask,
) -> Result<Body, Memory>
    ensures { IfOk result (λ body. body ≡ prio_body state.entry.now (as_send message.now) (bits mask)) }
{
    Ok(Body::Prio(Prio {
        src: state.fixed.me,
        dst: message.dst,
        sboot: state.core.lives.held_boot(state.fixed.me),
        seq: next_number(state),
        prio: message.prio,
        expiry: message.expiry,
        mask,
        payload: Bytes::copy(alloc, message.payload)?,
    }))
}

/// All that the message needs that takes these edges.
fn ready_prio(
    state: &State,
    alloc: Global,
    message: &PrioSend<'_>,
    mask: Mask,
) -> Result<ReadyPrio, Memory>
    requires kept { IsKept (format_of state.now.fixed) state.now }
    requires fits { PrioSendFits (as_send message.now) }
    requires free { prio_refusal state.now (as_send message.now) ≡ Nothing }
    requires mask { IsMaskFor state.now (as_send message.now) (Ok mask) }
    ensures ready { IfOk result (IsReadyPrio state.entry.now) }
    ensures body { IfOk result (λ ready. ready.blank.kept.body ≡ prio_body state.entry.now (as_send message.now) (bits mask)) }
{
    let body = prio_body(state, alloc, message, mask)?;
    let blank = state.blank(alloc, body)?;
    let spare = state.core.prio.spare(alloc, &blank.kept, None)?;
    match Effects::with_room(alloc, 1 + 2 * state.core.prio.neighbours() + 3) {
        Ok(effects) => Ok(ReadyPrio {
            blank,
            spare,
            effects,
        }),
        Err(_) => Err(Memory),
    }
}

/// Signs a message that is ready, and puts it into its places.
fn admit_own(state: &mut State, ready: ReadyPrio) -> Effects
    requires { IsReadyPrio state.old ready }
    ensures state { state.new ≡ signed_once state.old
        (record state.old.parts { prio = admit_prio state.old.parts.prio (signed_now (format_of state.old.fixed) state.old ready.blank.kept.body) Nothing }) }
    ensures told { result.list ≡ signed_effect (format_of state.old.fixed) ready.blank.kept.body ∷ prio_effects state.old.parts.prio
        (signed_now (format_of state.old.fixed) state.old ready.blank.kept.body) Nothing }
{
    state.recall();
    let ReadyPrio {
        blank,
        spare,
        mut effects,
    } = ready;
    let Blank { kept, bytes } = state.sign(blank);
    effects.push(Effect::Signed(bytes));
    place_own(&mut state.core, kept, spare, &mut effects);
    effects
}

/// The edges that a message to a node takes over so many paths, by the weights in effect.
pub(crate) fn choose(
    book: &mut PathBook,
    alloc: Global,
    fixed: &Fixed,
    core: &Parts,
    dst: NodeId,
    paths: u8,
) -> Result<Mask, NoMask>
    requires topology { IsRunnable fixed.now.topology }
    requires edges { core.now.weights.edges ≡ fixed.now.topology.edges }
    requires small { (edge : ℕ) → effective core.now.weights edge ≤ MAX_WEIGHT }
    requires from { is_node (nodes_of fixed.now.topology) fixed.now.me.0 ≡ true }
    requires to { is_node (nodes_of fixed.now.topology) dst.0 ≡ true }
    requires other { fixed.now.me ≢ dst }
    requires few { paths ≤ MAX_PATHS }
    ensures mask { IfOk result (λ mask.
        IsChoice core.now.weights (graph_of fixed.now.topology core.now.weights) fixed.now.me dst paths (Over (bits mask))) }
    ensures fewer { IfErr result (SaysFewer (graph_of fixed.now.topology core.now.weights) fixed.now.me dst paths) }
{
    mask_to(
        book,
        alloc,
        &fixed.topology,
        &core.weights,
        fixed.me,
        dst,
        paths,
    )
}

/// Puts a message that is signed into its places, with the copies that were made before.
fn place_own(core: &mut Parts, kept: Kept, spare: Spare, out: &mut Effects)
    requires spare { IsSpareFor kept spare }
    requires copies { spare.copies ≡ places core.old.prio kept.body Nothing }
    requires fields { FitsAFormat kept.body }
    requires inbox { core.old.prio.inbox.last < 2 ^ 63 }
    requires stores { All (λ q. q.store.last < 2 ^ 63) core.old.prio.peers }
    requires room { 2 * length core.old.prio.peers + 3 ≤ out.old.room }
    ensures core { core.new ≡ record core.old { prio = admit_prio core.old.prio kept Nothing } }
    ensures told { out.new ≡ told out.old (prio_effects core.old.prio kept Nothing) }
{
    core.prio.admit(spare.parcel(kept, None), out);
}
