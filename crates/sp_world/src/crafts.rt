// The bytes that a compromised neighbour crafts: fresh to the node that acts, and under the right tag.
ghost use Rattle.sp_topology.specs.Neighbours.{joins};
ghost use Rattle.std.specs.Prelude.{ℕ, position, ◌≡◌, [], IfOk, None as Nothing, OnErr, Some as There};
ghost use Rattle.sp_adversary.specs.Boots.{held_of};
ghost use Rattle.sp_msg.specs.Bodies.{HasGoodFieldsIn};
ghost use Rattle.laws_runs_format.specs.Arts.{arts_of};
ghost use Rattle.sp_rules.specs.Node.{NodeState};
ghost use Rattle.sp_runs.specs.Inputs.{crafted_frame, crafted_head, dated, slot_alone};
ghost use Rattle.sp_runs.specs.Scenarios.{edge_key, setting_of};
ghost use Rattle.sp_runs.specs.Worlds.{node_in};
ghost use Rattle.sp_schedule_crafts.specs.Objects.{body_of};
ghost use Rattle.sp_schedule_events.specs.declared.event.Event.TheVariants as events;
ghost use Rattle.sp_world.specs.Boots.{IsHome};
ghost use Rattle.sp_world.specs.Documents.{CanCraftDocument};
ghost use Rattle.sp_world.specs.Scenes.{IsOf, with_crafted, world_in};
ghost use Rattle.sp_world.specs.Stands.{CanCraft, Comes, IsOfFormat, IsEdgeOf, IsThere, crafted_by};

use crate::bytes::Came;
use crate::documents::weights_of;
use crate::home::Home;
use crate::scene::Scene;
use sp_adversary::{
    Crafted, EndBoots, crafted_head, dated, document_frame, edge_between, edge_key, ends_of,
    object_frame, status_frame,
};
use sp_base::{Bytes, Flow, Listed, Memory, NodeId};
use sp_frame::Head;
use sp_msg::Body;
use sp_schedule_crafts::CraftedObject;
use sp_schedule_events::Scenario;
use sp_world_steps::{Member, member_of};
use std::alloc::Global;

/// What a crafted report says: its flow, its base, and what it has.
#[derive(Clone, Copy, Debug)]
pub struct CraftedReport {
    pub flow: Flow,
    pub base: u64,
    pub have: u64,
}

/// What a crafted document says: its version and its weights, or else the last ones, and whose key signs it, the administrator's where it is 0.
#[derive(Clone, Copy, Debug)]
pub struct CraftedVersion<'a> {
    pub key: u8,
    pub version: u32,
    pub weights: &'a Option<Listed<u32>>,
}

/// A frame of `c` for `v` with one message, which is signed with the next index of this key, or that it has none left. The message names the boots
/// that `v` holds of its ends. Only want of memory refuses, and then the nodes and the frames are as before.
#[tactic(auto, using(crate::proofs::Rules::crafted))]
pub fn crafted(
    alloc: Global,
    scenario: &Scenario,
    scene: &mut Scene,
    c: NodeId,
    v: NodeId,
    key: NodeId,
    object: &CraftedObject,
) -> Result<Came, Memory>
    requires can { CanCraft scenario.now scene.old.nodes c v }
    requires crafters { IsOf scenario.now scene.old }
    requires fields { (n : NodeState) → node_in scene.old.nodes v ≡ There n → HasGoodFieldsIn scenario.now.format (dated n.parts.lives (body_of object.now)) }
    ensures comes { IfOk result (λ came. Comes (setting_of scenario.now) (world_in scene.old) (events.Craft c v key object.now) came) }
    ensures scene { IfOk result (λ came. scene.new ≡ with_crafted scene.old (crafted_by scene.old.crafters.keys (events.Craft c v key object.now) came)) }
    ensures crafters { IsOf scenario.now scene.new }
    ensures as_before { OnErr result ((scene.new.nodes ≡ scene.old.nodes) × (scene.new.directions ≡ scene.old.directions)) }
{
    let head = head_for(scenario, &scene.nodes, c, v);
    let tag_key = key_for(scenario, c, v);
    let body = said(alloc, &scene.nodes, v, object)?;
    match scene.crafters.craft(alloc, key, &body)? {
        Crafted::Signed(signed) => Ok(Came::Datagram(object_frame(
            alloc, &head, &tag_key, &signed,
        )?)),
        Crafted::Spent { total } => Ok(Came::Spent { total }),
    }
}

/// A frame of `c` for `v` with a document. The administrator signs one of any version with the index before it. Else it is signed with the next index of the
/// key, or that has none left. Only want of memory refuses, and then the nodes and the frames are as before.
#[tactic(auto, using(crate::proofs::Rules::crafted_documents))]
pub fn document(
    alloc: Global,
    scenario: &Scenario,
    home: &Home,
    scene: &mut Scene,
    c: NodeId,
    v: NodeId,
    what: CraftedVersion<'_>,
) -> Result<Came, Memory>
    requires home { IsHome scenario.now home.now }
    requires can { CanCraft scenario.now scene.old.nodes c v }
    requires document { CanCraftDocument scenario.now scene.old.published what.key what.version what.weights.now }
    requires crafters { IsOf scenario.now scene.old }
    ensures comes { IfOk result (λ came. Comes (setting_of scenario.now) (world_in scene.old)
        (events.CraftDocument c v what.entry.key what.entry.version what.entry.weights.now) came) }
    ensures scene { IfOk result (λ came. scene.new ≡ with_crafted scene.old
        (crafted_by scene.old.crafters.keys (events.CraftDocument c v what.entry.key what.entry.version what.entry.weights.now) came)) }
    ensures crafters { IsOf scenario.now scene.new }
    ensures as_before { OnErr result ((scene.new.nodes ≡ scene.old.nodes) × (scene.new.directions ≡ scene.old.directions)) }
{
    let head = head_for(scenario, &scene.nodes, c, v);
    let tag_key = key_for(scenario, c, v);
    let weights = weights_of(what.weights, &scene.published);
    if what.key == 0 {
        let document = home.document(alloc, scenario, what.version, weights)?;
        let bytes = document_frame(alloc, &head, &tag_key, document.as_slice())?;
        return Ok(Came::Datagram(bytes));
    }
    let unsigned = home.unsigned(alloc, scenario, what.version, weights)?;
    let key = NodeId(what.key);
    match scene
        .crafters
        .craft_document(alloc, key, unsigned.as_slice())?
    {
        Crafted::Signed(document) => {
            let bytes = document_frame(alloc, &head, &tag_key, document.as_slice())?;
            Ok(Came::Datagram(bytes))
        }
        Crafted::Spent { total } => Ok(Came::Spent { total }),
    }
}

/// The message that the object is, with the boots that `v` holds of its ends.
#[tactic(auto, using(crate::proofs::Crafting::said_is))]
fn said(alloc: Global, nodes: &[Member], v: NodeId, object: &CraftedObject) -> Result<Body, Memory>
    requires { IsThere nodes.now v }
    ensures { IfOk result (λ body. (n : NodeState) → node_in nodes.now v ≡ There n → body ≡ dated n.parts.lives (body_of object.now)) }
{
    let Some(member) = member_of(nodes, v) else {
        unreachable!()
    };
    let body = object.body(alloc)?;
    let ends = ends_of(&body);
    Ok(dated(body, held_boots(member, ends)))
}

/// The boots that a node holds of the ends of a flow.
fn held_boots(member: &Member, ends: Flow) -> EndBoots
    ensures { result ≡ held_of member.now.parts.lives ends }
{
    EndBoots {
        sboot: member.held_boot(ends.src),
        dboot: member.held_boot(ends.dst),
    }
}

/// A frame of `c` for `v` with a report on a flow, which names the boots that `v` holds of its ends, and no message.
#[tactic(auto, using(crate::proofs::Crafting::frame_is, crate::proofs::Crafting::status_is))]
pub fn status(
    alloc: Global,
    scenario: &Scenario,
    nodes: &[Member],
    c: NodeId,
    v: NodeId,
    report: CraftedReport,
) -> Result<Bytes, Memory>
    requires can { CanCraft scenario.now nodes.now c v }
    ensures { IfOk result (λ bytes. (n : NodeState) → node_in nodes.now v ≡ There n → bytes
        ≡ crafted_frame (arts_of (setting_of scenario.now)) n c (slot_alone n.parts.lives report.flow report.base report.have Nothing [])) }
{
    let Some(member) = member_of(nodes, v) else {
        unreachable!()
    };
    let head = head_for(scenario, nodes, c, v);
    let tag_key = key_for(scenario, c, v);
    let CraftedReport { flow, base, have } = report;
    let boots = held_boots(member, flow);
    status_frame(alloc, &head, &tag_key, flow, boots, base, have)
}

/// The head of the next frame of `c` for `v`.
#[tactic(auto, using(crate::proofs::Crafting::head_is))]
fn head_for(scenario: &Scenario, nodes: &[Member], c: NodeId, v: NodeId) -> Head
    requires { IsOfFormat scenario.now.format nodes.now v }
    ensures head { (n : NodeState) → node_in nodes.now v ≡ There n → result ≡ crafted_head n c }
    ensures format { result.format ≡ scenario.now.format }
{
    let Some(member) = member_of(nodes, v) else {
        unreachable!()
    };
    let (_, counter) = member.node().kept_pair(c);
    crafted_head(
        c,
        v,
        member.boot(),
        counter,
        member.node().version(),
        scenario.format,
    )
}

/// The key of the edge between the two.
fn key_for(scenario: &Scenario, c: NodeId, v: NodeId) -> [u8; 32]
    requires { IsEdgeOf scenario.now c v }
    ensures { (edge : ℕ) → position (joins c.0 v.0) scenario.now.graph.edges ≡ There edge → result ≡ edge_key scenario.now.seed edge }
{
    let Some(edge) = edge_between(scenario.graph.edges.as_slice(), c, v) else {
        unreachable!()
    };
    edge_key(&scenario.seed, edge)
}
