// One event at the node that acts, by its kind.
ghost use Rattle.std.specs.Prelude.{◌≡◌, IfOk, OnErr};
ghost use Rattle.sp_runs.specs.Lives.{IsOther};
ghost use Rattle.sp_runs.specs.Scenarios.{setting_of};
ghost use Rattle.sp_world.specs.Boots.{IsHome};
ghost use Rattle.sp_world.specs.Past.{IsUndone};
ghost use Rattle.sp_world.specs.Scenes.{IsOf, world_in};
ghost use Rattle.sp_world.specs.Stands.{ComesTo, ComesToOne, IsArrival, IsTold, Stands};

use crate::arrivals::arrive;
use crate::bytes::{Came, bring, sender};
use crate::documents::hand_out;
use crate::home::Home;
use crate::lives::{make_ready, miss, start, stop};
use crate::scene::Scene;
use sp_base::Memory;
use sp_forgery::Known;
use sp_journal::Entry;
use sp_node_words::spent;
use sp_runs::What;
use sp_schedule_events::Event;
use sp_world_steps::ask;
use std::alloc::Global;

/// What an event came to.
#[derive(Debug, Drop)]
pub enum Done {
    /// It is told by this entry.
    Told(Entry),
    /// This of it is forged: once to keep, and once to tell.
    Forged { what: What, told: What },
}

/// Does an event. After want of memory the nodes and the frames are as before, but that the node of the event may have reserved indexes.
#[tactic(auto, using(crate::proofs::Rules::lives))]
pub fn act(
    alloc: Global,
    known: &Known<'_>,
    home: &Home,
    scene: &mut Scene,
    event: &Event,
) -> Result<Done, Memory>
    requires stands { Stands known.now.scenario.now known.now.events.now known.now.journal.now (world_in scene.old) event.now }
    requires home { IsHome known.now.scenario.now home.now }
    requires crafters { IsOf known.now.scenario.now scene.old }
    requires long { known.now.signature_len ≡ (setting_of known.now.scenario.now).signature_len }
    ensures done { IfOk result (λ done. ComesTo (setting_of known.now.scenario.now) known.now.events.now known.now.journal.now
        (world_in scene.old) event.now done (world_in scene.new)) }
    ensures crafters { IsOf known.now.scenario.now scene.new }
    ensures as_before { OnErr result (IsUndone (setting_of known.now.scenario.now) (world_in scene.old) event.now (world_in scene.new)) }
{
    match event {
        Event::Start { u } => Ok(Done::Told(start(alloc, known.scenario, home, scene, *u)?)),
        Event::Stop { u } => Ok(Done::Told(stop(alloc, known.scenario, scene, *u))),
        _ => reach(alloc, known, home, scene, event),
    }
}

/// Does an event that is no start and no stop.
#[tactic(auto, using(crate::proofs::Publishing::few_versions))]
fn reach(
    alloc: Global,
    known: &Known<'_>,
    home: &Home,
    scene: &mut Scene,
    event: &Event,
) -> Result<Done, Memory>
    requires home { IsHome known.now.scenario.now home.now }
    requires other { IsOther event.now }
    requires stands { Stands known.now.scenario.now known.now.events.now known.now.journal.now (world_in scene.old) event.now }
    requires crafters { IsOf known.now.scenario.now scene.old }
    requires long { known.now.signature_len ≡ (setting_of known.now.scenario.now).signature_len }
    ensures done { IfOk result (λ done. ComesTo (setting_of known.now.scenario.now) known.now.events.now known.now.journal.now
        (world_in scene.old) event.now done (world_in scene.new)) }
    ensures crafters { IsOf known.now.scenario.now scene.new }
    ensures as_before { OnErr result (IsUndone (setting_of known.now.scenario.now) (world_in scene.old) event.now (world_in scene.new)) }
{
    if scene.comes_to_nobody(event) {
        return Ok(Done::Told(miss(alloc, scene, event)?));
    }
    match event {
        Event::Pass { .. }
        | Event::Flip { .. }
        | Event::Inject { .. }
        | Event::Craft { .. }
        | Event::CraftStatus { .. }
        | Event::CraftDocument { .. } => arrival(alloc, known, home, scene, event),
        _ => Ok(Done::Told(asked(alloc, known, home, scene, event)?)),
    }
}

/// A client, the clock or the administrator asks something of the node that acts, or it is polled.
#[tactic(auto, using(crate::proofs::Rules::came))]
fn asked(
    alloc: Global,
    known: &Known<'_>,
    home: &Home,
    scene: &mut Scene,
    event: &Event,
) -> Result<Entry, Memory>
    requires home { IsHome known.now.scenario.now home.now }
    requires comes { ComesToOne known.now.scenario.now known.now.events.now known.now.journal.now (world_in scene.old) event.now }
    requires call { IsArrival event.now → ⊥ }
    ensures told { IfOk result (λ entry. IsTold (setting_of known.now.scenario.now) known.now.events.now known.now.journal.now
        (world_in scene.old) event.now entry (world_in scene.new)) }
    ensures crafters { scene.new.crafters ≡ scene.old.crafters }
    ensures as_before { OnErr result (IsUndone (setting_of known.now.scenario.now) (world_in scene.old) event.now (world_in scene.new)) }
{
    make_ready(known.scenario, scene, event);
    match event {
        Event::Poll { u, v } => scene.directions.poll(alloc, &mut scene.nodes, *u, *v),
        _ => {
            let document = hand_out(alloc, known.scenario, home, &mut scene.published, event)?;
            ask(
                alloc,
                &mut scene.nodes,
                event.acting(),
                event,
                document.as_slice(),
            )
        }
    }
}

/// Bytes come to the node that acts.
#[tactic(auto, using(crate::proofs::Rules::came))]
fn arrival(
    alloc: Global,
    known: &Known<'_>,
    home: &Home,
    scene: &mut Scene,
    event: &Event,
) -> Result<Done, Memory>
    requires home { IsHome known.now.scenario.now home.now }
    requires arrival { IsArrival event.now }
    requires comes { ComesToOne known.now.scenario.now known.now.events.now known.now.journal.now (world_in scene.old) event.now }
    requires crafters { IsOf known.now.scenario.now scene.old }
    requires long { known.now.signature_len ≡ (setting_of known.now.scenario.now).signature_len }
    ensures done { IfOk result (λ done. ComesTo (setting_of known.now.scenario.now) known.now.events.now known.now.journal.now
        (world_in scene.old) event.now done (world_in scene.new)) }
    ensures crafters { IsOf known.now.scenario.now scene.new }
    ensures as_before { OnErr result (IsUndone (setting_of known.now.scenario.now) (world_in scene.old) event.now (world_in scene.new)) }
{
    match bring(alloc, known, home, scene, event)? {
        Came::Datagram(bytes) => {
            make_ready(known.scenario, scene, event);
            let (u, v) = (sender(event), event.acting());
            arrive(
                alloc,
                known,
                &mut scene.nodes,
                &scene.directions,
                u,
                v,
                bytes.as_slice(),
            )
        }
        Came::Spent { total } => Ok(Done::Told(spent(alloc, total))),
    }
}
