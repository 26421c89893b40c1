// A client sets the weight of a link.
ghost use Rattle.std.specs.Prelude.{◌≡◌, ◌≢◌, ◌≤◌, IfErr, IfOk, None as Nothing, Some as There, ◌∷◌};
ghost use Rattle.laws_node.specs.Nodes.{IsKept};
ghost use Rattle.sp_base.specs.declared.limits.TheConstants.{MAX_WEIGHT};
ghost use Rattle.sp_node_format.specs.Format.{format_of};
ghost use Rattle.sp_node_state.specs.Sends.{Sends};
ghost use Rattle.sp_node_state.specs.ReadySends.{IsReadyUpdate};
ghost use Rattle.sp_rules.specs.Handle.{weight_effects};
ghost use Rattle.sp_rules.specs.Node.{signed_now, signed_once};
ghost use Rattle.sp_rules.specs.Parts.{edge_to};
ghost use Rattle.sp_rules.specs.Sends.{signed_effect, weight_body, weight_refusal};
ghost use Rattle.sp_rules.specs.Steps.{SetWeight};
ghost use Rattle.sp_rules.specs.Told.{told};
ghost use Rattle.sp_rules.specs.Weights.{held};

use crate::State;
use sp_base::{EdgeId, Memory, NodeId};
use sp_msg::{Body, Effect, Effects, SendRefused, WeightBody};
use sp_rules::Step;
use sp_sign::Blank;
use std::alloc::Global;

/// All that an update of a weight needs: itself, and room for what it causes.
#[derive(Drop)]
pub struct ReadyUpdate {
    pub blank: Blank,
    pub effects: Effects,
}

/// What this node says of the weight of its link to a neighbour is signed and held, under the number after the last.
pub fn set_weight(
    state: &mut State,
    alloc: Global,
    peer: NodeId,
    weight: u32,
) -> Result<Step<u64>, SendRefused>
    requires kept { IsKept (format_of state.old.fixed) state.old }
    requires least { 1 ≤ weight }
    requires most { weight ≤ MAX_WEIGHT }
    ensures { Sends (SetWeight peer weight) (weight_refusal state.old peer weight) state.old result state.new }
{
    let edge = edge_for(state, peer, weight)?;
    let Ok(ready) = ready_update(state, alloc, peer, edge, weight) else {
        return Err(SendRefused::Memory);
    };
    let number = state.core.weights.next_seq(edge, state.fixed.me);
    let effects = hold_own(state, ready);
    Ok(Step {
        reply: number,
        effects,
    })
}

/// The edge to a neighbour, or why its weight isn't set.
fn edge_for(state: &State, peer: NodeId, weight: u32) -> Result<EdgeId, SendRefused>
    requires { IsKept (format_of state.now.fixed) state.now }
    ensures edge { IfOk result (λ edge. edge_to state.entry.now.fixed peer ≡ There edge.0) }
    ensures free { IfOk result (λ _. weight_refusal state.entry.now peer weight ≡ Nothing) }
    ensures refused { IfErr result (λ refused. weight_refusal state.entry.now peer weight ≡ There refused) }
    ensures no_want { result ≢ Err SendRefused.Memory }
{
    let topology = &state.fixed.topology;
    let Some(edge) = topology.edge_of(state.fixed.me, peer) else {
        return Err(SendRefused::BadEnd);
    };
    let weights = &state.core.weights;
    if weights.is_withdrawn(edge) {
        return Err(SendRefused::BadEnd);
    }
    let min = weights.minimum(edge);
    if weight < min {
        return Err(SendRefused::Low { min });
    }
    match state.signer_refusal() {
        Some(refused) => Err(refused),
        None => Ok(edge),
    }
}

/// The next update of this node's end of an edge.
fn update(state: &State, peer: NodeId, edge: EdgeId, weight: u32) -> Body
    requires { edge_to state.now.fixed peer ≡ There edge.0 }
    ensures { result ≡ weight_body state.entry.now peer weight }
{
    let _to = peer;
    Body::Weight(WeightBody {
        origin: state.fixed.me,
        edge,
        seq: state.core.weights.next_seq(edge, state.fixed.me),
        weight,
    })
}

/// All that the next update of this node's end of an edge needs.
fn ready_update(
    state: &State,
    alloc: Global,
    peer: NodeId,
    edge: EdgeId,
    weight: u32,
) -> Result<ReadyUpdate, Memory>
    requires kept { IsKept (format_of state.now.fixed) state.now }
    requires least { 1 ≤ weight }
    requires most { weight ≤ MAX_WEIGHT }
    requires edge { edge_to state.now.fixed peer ≡ There edge.0 }
    requires free { weight_refusal state.now peer weight ≡ Nothing }
    ensures ready { IfOk result (IsReadyUpdate state.entry.now) }
    ensures body { IfOk result (λ ready. ready.blank.kept.body ≡ weight_body state.entry.now peer weight) }
{
    let blank = state.blank(alloc, update(state, peer, edge, weight))?;
    match Effects::with_room(alloc, 2) {
        Ok(effects) => Ok(ReadyUpdate { blank, effects }),
        Err(_) => Err(Memory),
    }
}

/// Signs an update that is ready, and holds it.
fn hold_own(state: &mut State, ready: ReadyUpdate) -> Effects
    requires { IsReadyUpdate state.old ready }
    ensures state { state.new ≡ signed_once state.old
        (record state.old.parts { weights = held state.old.parts.weights (signed_now (format_of state.old.fixed) state.old ready.blank.kept.body) }) }
    ensures told { result.list ≡ signed_effect (format_of state.old.fixed) ready.blank.kept.body ∷ weight_effects ready.blank.kept.body }
{
    let ReadyUpdate { blank, mut effects } = ready;
    let Blank { kept, bytes } = state.sign(blank);
    effects.push(Effect::Signed(bytes));
    tell_held(&kept.body, &mut effects);
    state.core.weights.hold(kept);
    effects
}

/// Tells that an update is held.
fn tell_held(body: &Body, effects: &mut Effects)
    requires { 1 ≤ effects.old.room }
    ensures { effects.new ≡ told effects.old (weight_effects body.now) }
{
    if let Body::Weight(update) = body {
        effects.push(Effect::WeightHeld {
            origin: update.origin,
            edge: update.edge,
            seq: update.seq,
            weight: update.weight,
        });
    }
}
