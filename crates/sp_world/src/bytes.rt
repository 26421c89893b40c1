// The bytes that the network and the adversary bring.
ghost use Rattle.std.specs.Prelude.{ℕ, ◌≡◌, ◌≤◌, List, IfOk, None as Nothing, OnErr, Some as There, length, option_map};
ghost use Rattle.sp_runs.specs.Inputs.{flipped};
ghost use Rattle.sp_runs.specs.Scenarios.{setting_of};
ghost use Rattle.sp_runs.specs.Worlds.{frame_in};
ghost use Rattle.sp_world.specs.Boots.{IsHome};
ghost use Rattle.sp_world.specs.Scenes.{IsOf, with_crafted, world_in};
ghost use Rattle.sp_world.specs.Stands.{Comes, ComesToOne, IsArrival, crafted_by, sender};

use crate::crafts::{CraftedReport, CraftedVersion, crafted, document, status};
use crate::home::Home;
use crate::scene::Scene;
use sp_adversary::flipped;
use sp_base::{Bytes, Flow, Memory, NodeId};
use sp_forgery::Known;
use sp_schedule_events::Event;
use sp_world_steps::Directions;
use std::alloc::Global;

/// What comes to the node that acts.
#[derive(Debug, Drop)]
pub enum Came {
    Datagram(Bytes),
    /// Nothing: the crafting signer has made all its signatures, so many.
    Spent { total: u64 },
}

/// The node from whose address the bytes come.
pub fn sender(event: &Event) -> NodeId
    requires { IsArrival event.now }
    ensures { result ≡ sender event.now }
{
    match event {
        Event::Pass { u, .. } | Event::Flip { u, .. } | Event::Inject { u, .. } => *u,
        Event::Craft { c, .. } | Event::CraftStatus { c, .. } | Event::CraftDocument { c, .. } =>
            *c,
        _ => unreachable!(),
    }
}

/// The bytes of an arrival. The crafting signers go on by its message, if it crafts one.
#[tactic(auto, using(crate::proofs::Rules::brought))]
pub fn bring(
    alloc: Global,
    known: &Known<'_>,
    home: &Home,
    scene: &mut Scene,
    event: &Event,
) -> Result<Came, Memory>
    requires home { IsHome known.now.scenario.now home.now }
    requires arrival { IsArrival event.now }
    requires comes { ComesToOne known.now.scenario.now known.now.events.now known.now.journal.now (world_in scene.old) event.now }
    requires crafters { IsOf known.now.scenario.now scene.old }
    ensures comes { IfOk result (λ came. Comes (setting_of known.now.scenario.now) (world_in scene.old) event.now came) }
    ensures scene { IfOk result (λ came. scene.new ≡ with_crafted scene.old (crafted_by scene.old.crafters.keys event.now came)) }
    ensures crafters { IsOf known.now.scenario.now scene.new }
    ensures as_before { OnErr result ((scene.new.nodes ≡ scene.old.nodes) × (scene.new.directions ≡ scene.old.directions)) }
{
    match event {
        Event::Pass { u, v, number } => {
            Ok(Came::Datagram(passed(alloc, &scene.directions, *u, *v, *number)?))
        }
        Event::Flip {
            u,
            v,
            number,
            back,
            bit,
        } => Ok(Came::Datagram(changed(alloc, &scene.directions, *u, *v, *number, *back, *bit)?)),
        Event::Inject { bytes, .. } => { Ok(Came::Datagram(Bytes::copy(alloc, bytes.as_slice())?)) }
        Event::Craft { c, v, key, object } => {
            crafted(alloc, known.scenario, scene, *c, *v, *key, object)
        }
        Event::CraftStatus {
            c,
            v,
            s,
            d,
            base,
            have,
        } => {
            let report = CraftedReport {
                flow: Flow { src: *s, dst: *d },
                base: *base,
                have: *have,
            };
            let nodes = scene.nodes.as_slice();
            let bytes = status(alloc, known.scenario, nodes, *c, *v, report)?;
            Ok(Came::Datagram(bytes))
        }
        Event::CraftDocument {
            c,
            v,
            key,
            version,
            weights,
        } => {
            let version = CraftedVersion {
                key: *key,
                version: *version,
                weights,
            };
            document(alloc, known.scenario, home, scene, *c, *v, version)
        }
        _ => unreachable!(),
    }
}

/// A frame as it was made.
fn passed(
    alloc: Global,
    directions: &Directions,
    u: NodeId,
    v: NodeId,
    number: u32,
) -> Result<Bytes, Memory>
    requires there { frame_in directions.now u v number ≡ Nothing → ⊥ }
    ensures { IfOk result (λ bytes. frame_in directions.now u v number ≡ There bytes) }
{
    let Some(frame) = directions.frame(u, v, number) else {
        unreachable!()
    };
    Bytes::copy(alloc, frame.as_slice())
}

/// A frame with one bit changed.
fn changed(
    alloc: Global,
    directions: &Directions,
    u: NodeId,
    v: NodeId,
    number: u32,
    back: u8,
    bit: u8,
) -> Result<Bytes, Memory>
    requires there { frame_in directions.now u v number ≡ Nothing → ⊥ }
    requires long { (frame : List ℕ) → frame_in directions.now u v number ≡ There frame → 64 ≤ length frame }
    requires some { 1 ≤ back }
    requires near { back ≤ 64 }
    requires bit { bit ≤ 7 }
    ensures { IfOk result (λ bytes. option_map (flipped back bit) (frame_in directions.now u v number) ≡ There bytes) }
{
    let Some(frame) = directions.frame(u, v, number) else {
        unreachable!()
    };
    flipped(alloc, frame.as_slice(), back, bit)
}
