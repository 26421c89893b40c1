// What runs with epochs have beside the steps of nodes: a node reserves indexes before it acts, starts and stops; and what comes to nobody.
ghost use Rattle.std.specs.Prelude.{◌≡◌, ◌+◌, ◌<◌, ◌^◌, true, IfOk, OnErr};
ghost use Rattle.laws_runs_format.specs.Arts.{arts_of};
ghost use Rattle.sp_schedule_events.specs.declared.event.Event as event;
ghost use Rattle.sp_runs.specs.Inputs.{acting};
ghost use Rattle.sp_runs.specs.Lives.{IsDown, IsStop, Life, comes_to_nobody, ready};
ghost use Rattle.sp_runs.specs.Scenarios.{setting_of};
ghost use Rattle.sp_schedule_events.specs.declared.event.Event.TheVariants as events;
ghost use Rattle.sp_world.specs.Boots.{IsHome};
ghost use Rattle.sp_world.specs.Scenes.{AreFiled, CanBegin, world_in};

use crate::home::{Home, total};
use crate::scene::Scene;
use sp_base::{Memory, NodeId, push_in_room};
use sp_epoch::EpochRefused;
use sp_journal::{Entry, Reply};
use sp_node_words::{quiet, told};
use sp_rules::Step;
use sp_schedule_events::{Event, Scenario, add_list, list_in};
use sp_world_steps::{forget, member_of, reserve};
use std::alloc::Global;

/// A node starts with its next boot, and signs that, or it has no index left. All memory is taken first: after want of it nothing has changed.
#[tactic(auto, using(crate::proofs::Starting::may_start, crate::proofs::Starting::is_started, crate::proofs::Starting::is_exhausted))]
pub fn start(
    alloc: Global,
    scenario: &Scenario,
    home: &Home,
    scene: &mut Scene,
    u: NodeId,
) -> Result<Entry, Memory>
    requires can { CanBegin scenario.now scene.old.keys u }
    requires home { IsHome scenario.now home.now }
    ensures life { IfOk result (λ entry. Life (arts_of (setting_of scenario.now)) (setting_of scenario.now) (world_in scene.old) (events.Start u) entry
        (world_in scene.new)) }
    ensures crafters { scene.new.crafters ≡ scene.old.crafters }
    ensures as_before { OnErr result (scene.new ≡ scene.old) }
{
    let most = total(scenario.height);
    let next = match scene.keys.next(u, most) {
        Ok(next) => next,
        Err(EpochRefused::Exhausted { bound }) => {
            return Ok(quiet(alloc, Reply::Exhausted { bound }));
        }
        Err(EpochRefused::Memory) => unreachable!(),
    };
    scene.nodes.reserve(1)?;
    let Step {
        reply: member,
        effects,
    } = home.start(alloc, scenario, u, next)?;
    let Ok(taken) = scene.keys.start(u, most) else {
        unreachable!()
    };
    push_in_room(&mut scene.nodes, member);
    let reply = Reply::Started {
        boot: taken.boot,
        index: taken.index,
    };
    Ok(told(reply, effects))
}

/// A node stops, if it runs: all of it is lost, but for its key file.
pub fn stop(alloc: Global, scenario: &Scenario, scene: &mut Scene, u: NodeId) -> Entry
    requires { AreFiled scenario.now scene.old.keys scene.old.nodes u }
    ensures stop { IsStop (setting_of scenario.now) (world_in scene.old) u result (world_in scene.new) }
    ensures crafters { scene.new.crafters ≡ scene.old.crafters }
{
    reserve_for(scenario, scene, u);
    forget(&mut scene.nodes, u);
    quiet(alloc, Reply::Stopped)
}

/// The node of an event reserves more indexes before it acts, where it runs with epochs and has few left.
pub fn make_ready(scenario: &Scenario, scene: &mut Scene, event: &Event)
    requires { AreFiled scenario.now scene.old.keys scene.old.nodes (acting event.now) }
    ensures ready { world_in scene.new ≡ ready (setting_of scenario.now) (world_in scene.old) event.now }
    ensures crafters { scene.new.crafters ≡ scene.old.crafters }
{
    reserve_for(scenario, scene, event.acting());
}

/// The same of this node.
#[tactic(auto, using(crate::proofs::Rules::reserving))]
fn reserve_for(scenario: &Scenario, scene: &mut Scene, u: NodeId)
    requires { AreFiled scenario.now scene.old.keys scene.old.nodes u }
    ensures ready { (event : event.Event) → acting event ≡ u
        → world_in scene.new ≡ ready (setting_of scenario.now) (world_in scene.old) event }
    ensures crafters { scene.new.crafters ≡ scene.old.crafters }
{
    if !scenario.epochs {
        return;
    }
    let Some(member) = member_of(&scene.nodes, u) else {
        return;
    };
    if member.is_short() {
        let upto = scene.keys.more(u, total(scenario.height));
        reserve(&mut scene.nodes, u, upto);
    }
}

/// An event comes to nobody. A poll still counts in the numbers of its direction, and what is published takes its version. After want of memory nothing has
/// changed.
#[tactic(auto, using(crate::proofs::Starting::poll_is_down, crate::proofs::Starting::other_is_down))]
pub fn miss(alloc: Global, scene: &mut Scene, event: &Event) -> Result<Entry, Memory>
    requires nobody { comes_to_nobody (world_in scene.old) event.now ≡ true }
    requires few { scene.old.published.version + 1 < 2 ^ 32 }
    ensures down { IfOk result (λ entry. IsDown (world_in scene.old) event.now entry (world_in scene.new)) }
    ensures crafters { scene.new.crafters ≡ scene.old.crafters }
    ensures as_before { OnErr result (scene.new ≡ scene.old) }
{
    match event {
        Event::Poll { u, v } => scene.directions.miss(alloc, *u, *v)?,
        _ => {
            let list = list_in(alloc, event)?;
            add_list(&mut scene.published, list);
        }
    }
    Ok(quiet(alloc, Reply::Down))
}
