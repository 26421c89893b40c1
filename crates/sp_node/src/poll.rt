// A poll: the next frame to a neighbour.
ghost use Rattle.std.specs.Prelude.{◌≡◌, ◌<◌, ◌≤◌, ◌+◌, ◌^◌, All, IfOk, Some as There, length, option_map, map, position, replicate, take};
ghost use Rattle.laws_node.specs.Nodes.{IsKept};
ghost use Rattle.sp_node_format.specs.Format.{format_of};
ghost use Rattle.sp_base.specs.Formats.{max_rels};
ghost use Rattle.sp_frame.specs.Frames.{frame_bytes};
ghost use Rattle.sp_frame.specs.Sections.{with_document};
ghost use Rattle.sp_frame.specs.Writing.{out_report};
ghost use Rattle.sp_frame.specs.declared.writing.TheConstants.{MAX_DOCUMENT_BYTES};
ghost use Rattle.sp_frame.specs.Ranges.{IsContentsIn};
ghost use Rattle.sp_node.specs.Calls.{Polls};
ghost use Rattle.sp_node_state.specs.ReadyStates.{IsAnswered};
ghost use Rattle.sp_base.specs.Rows.{first_where, replace_where};
ghost use Rattle.sp_base.specs.declared.limits.TheConstants.{MAX_MESSAGES};
ghost use Rattle.sp_rules.specs.Link as rules;
ghost use Rattle.sp_rules.specs.Link.{advanced, next_head};
ghost use Rattle.sp_rules.specs.Lives.{moved as gone_on};
ghost use Rattle.sp_rules.specs.Node.{is_link};
ghost use Rattle.sp_rules.specs.Parts.{place_in, place_of};
ghost use Rattle.sp_rules.specs.Polls.{after_poll, contents_at, contents_to, dated, frame_to, no_contents, parts_after, paths_to};
ghost use Rattle.sp_rules.specs.Kflow as kflow;
ghost use Rattle.sp_rules.specs.Prio.{carried, peer_in};
ghost use Rattle.sp_rules.specs.Rel.{served, slot_for};
ghost use Rattle.sp_rules.specs.Weights.{moved};

use sp_base::{Bytes, FORMAT_1, Four, Memory, NodeId};
use sp_frame::{Head, OutSections, OutSlot, write, write_document};
use sp_link::Link;
use sp_lives::Lives;
use sp_msg::Kept;
use sp_node_parts::{Fixed, Live, Parts};
use sp_node_state::State;
use sp_rules::NodeRefused;
use sp_topology::NodeKey;
use std::alloc::Global;

/// The next frame to a neighbour. It is written and sealed first; then the link and each cycle go on.
pub fn poll(state: &mut State, alloc: Global, v: NodeId) -> Result<Bytes, NodeRefused>
    requires { IsKept (format_of state.old.fixed) state.old }
    ensures { Polls state.old v result state.new }
{
    let place = state.place_for(v)?;
    let bytes = frame_at(state, alloc, place, v)?;
    went(state, place, v);
    Ok(bytes)
}

/// The frame for the neighbour of the link in this place.
fn frame_at(state: &State, alloc: Global, place: usize, v: NodeId) -> Result<Bytes, Memory>
    requires kept { IsKept (format_of state.now.fixed) state.now }
    requires answered { IsAnswered state.now v place }
    ensures { IfOk result (λ bytes. bytes ≡ frame_to (format_of state.entry.now.fixed) state.entry.now v) }
{
    let link = state.link_at(place, v);
    let head = head_for(&link, state);
    let mut frame = unsealed(alloc, &head, state, v)?;
    link.seal(&mut frame);
    Ok(frame)
}

/// The frame for the neighbour of the link in this place was made.
fn went(state: &mut State, place: usize, v: NodeId)
    requires kept { IsKept (format_of state.old.fixed) state.old }
    requires answered { IsAnswered state.old v place }
    ensures { state.new ≡ after_poll state.old v }
{
    carry(state, v);
    advance_at(&mut state.links, place, v);
    state.calls += 1;
}

/// What was next in turn of each part went to a neighbour. Nothing of it went with a document, and none goes over an edge that is withdrawn.
fn carry(state: &mut State, v: NodeId)
    requires { IsKept (format_of state.old.fixed) state.old }
    ensures { state.new ≡ record state.old { parts = parts_after state.old v } }
{
    if state.is_behind(v) || state.is_shut_to(v) {
        return;
    }
    let at = place_of(&state.fixed, v);
    moved(&mut state.core, at, v);
}

/// The head of the next frame over a link.
fn head_for(link: &Link, state: &State) -> Head
    requires { link.now.sent < 2 ^ 60 }
    ensures { result ≡ next_head link.now state.entry.now.live.version state.entry.now.fixed.topology.format }
{
    link.head(state.live.version, state.fixed.topology.format)
}

/// The bytes of the next frame to a neighbour, with zeros in the place of its tag: with the document where the neighbour runs under an older version, without
/// sections where the edge is withdrawn, and else with what is in turn.
fn unsealed(alloc: Global, head: &Head, state: &State, v: NodeId) -> Result<Bytes, Memory>
    requires kept { IsKept (format_of state.now.fixed) state.now }
    requires format { head.now.format ≡ state.now.fixed.topology.format }
    ensures { IfOk result (λ bytes. bytes ≡ frame_bytes head.now (contents_at state.entry.now v) (replicate 32 0)) }
{
    if state.is_behind(v) {
        return with_document(alloc, head, &state.live);
    }
    if state.is_shut_to(v) {
        return without_sections(alloc, head);
    }
    in_turn(alloc, head, &state.fixed, &state.core, v)
}

/// A frame with the document of the version that a node runs under, and nothing else.
fn with_document(alloc: Global, head: &Head, live: &Live) -> Result<Bytes, Memory>
    requires { length live.now.document ≤ MAX_DOCUMENT_BYTES }
    ensures { IfOk result (λ bytes. bytes ≡ frame_bytes head.now (with_document live.now.document) (replicate 32 0)) }
{
    match write_document(alloc, head, live.document.as_slice()) {
        Ok(bytes) => Ok(bytes),
        Err(_) => Err(Memory),
    }
}

/// A frame in which nothing but zeros stands between head and tag.
fn without_sections(alloc: Global, head: &Head) -> Result<Bytes, Memory>
    ensures { IfOk result (λ bytes. bytes ≡ frame_bytes head.now no_contents (replicate 32 0)) }
{
    let sections = OutSections {
        weight: None,
        prio_ack: 0,
        prios: Four::new(),
        slot: None,
        paths: None,
        probe: None,
        epoch: None,
    };
    match write(alloc, head, &sections) {
        Ok(bytes) => Ok(bytes),
        Err(_) => Err(Memory),
    }
}

/// A frame with what is next in turn of each part.
fn in_turn(
    alloc: Global,
    head: &Head,
    fixed: &Fixed,
    core: &Parts,
    v: NodeId,
) -> Result<Bytes, Memory>
    requires format { head.now.format ≡ fixed.now.topology.format }
    requires contents { IsContentsIn fixed.now.topology.format fixed.now.signature_len (contents_to fixed.now core.now v) }
    ensures { IfOk result (λ bytes. bytes ≡ frame_bytes head.now (contents_to fixed.now core.now v) (replicate 32 0)) }
{
    let at = place_of(fixed, v);
    let weight = core.weights.next(at);
    let epoch = core.lives.next(&core.origins, at);
    let sections = OutSections {
        weight,
        prio_ack: core.prio.heard_of(v),
        prios: core.prio.messages_for(v),
        slot: slot_for(fixed, core, v),
        paths: paths_for(fixed, core, v),
        probe: None,
        epoch,
    };
    match write(alloc, head, &sections) {
        Ok(bytes) => Ok(bytes),
        Err(_) => Err(Memory),
    }
}

/// The slot of the next frame to a neighbour.
fn slot_for<'a>(fixed: &Fixed, core: &'a Parts, v: NodeId) -> Option<OutSlot<'a>>
    ensures { option_map out_report result ≡ option_map (dated fixed.now.topology.format core.now.lives) (slot_for core.now.rel v) }
{
    match core.rel.slot_for(v) {
        Some(slot) => Some(dated(slot, fixed.topology.format, &core.lives)),
        None => None,
    }
}

/// The slot of flows on paths of the next frame to a neighbour. Format 1 has none.
fn paths_for<'a>(fixed: &Fixed, core: &'a Parts, v: NodeId) -> Option<OutSlot<'a>>
    ensures { option_map out_report result ≡ paths_to fixed.now core.now v }
{
    if fixed.topology.format == FORMAT_1 {
        return None;
    }
    match core.kflow.slot_for(v) {
        Some(slot) => Some(dated(slot, fixed.topology.format, &core.lives)),
        None => None,
    }
}

/// A slot under the boots that are held of its ends, with as many messages as a frame of the format may have.
fn dated<'a>(slot: OutSlot<'a>, format: u8, lives: &Lives) -> OutSlot<'a>
    ensures { out_report result ≡ dated format lives.now (out_report slot.entry) }
{
    let OutSlot {
        flow,
        base,
        have,
        ack,
        rels,
        ..
    } = slot;
    OutSlot {
        flow,
        sboot: lives.held_boot(flow.src),
        dboot: lives.held_boot(flow.dst),
        base,
        have,
        ack,
        rels: first_of(rels, format),
    }
}

/// The first messages, as many as a frame of the format may have.
fn first_of<'a>(rels: Four<&'a Kept>, format: u8) -> Four<&'a Kept>
    ensures { map (λ o. o.now) result ≡ take (max_rels format) (map (λ o. o.now) rels.entry) }
{
    if format == FORMAT_1 || rels.len() < 2 {
        return rels;
    }
    let Some((first, others)) = rels.split() else {
        return Four::new();
    };
    let Some((second, _)) = others.split() else {
        return Four::new().with(first);
    };
    Four::new().with(first).with(second)
}

/// What was next in turn of each part went to a neighbour, the node in this place.
fn moved(core: &mut Parts, at: usize, v: NodeId)
    requires { (peer_in core.old.prio v.0).number + MAX_MESSAGES ≤ 2 ^ 63 }
    ensures { core.new ≡ record {
      weights = moved core.old.weights at;
      prio = carried core.old.prio v.0;
      rel = served core.old.rel v;
      kflow = kflow.with_flows core.old.kflow (served core.old.kflow.flows v);
      lives = core.old.lives;
      origins = gone_on core.old.lives core.old.origins at;
    } }
{
    core.weights.moved(at);
    core.prio.carry(v);
    core.served(v);
    core.origins.moved(&core.lives, at);
}

/// The next frame over the link in this place was made.
fn advance_at(links: &mut Vec<Link>, place: usize, v: NodeId)
    requires place { position (is_link v) links.old.items ≡ There place }
    requires within { place < length links.old.items }
    requires sent { All (λ l. l.sent < 2 ^ 60) links.old.items }
    ensures { (none : rules.Link) → links.new.items ≡ replace_where (is_link v) (advanced (first_where (is_link v) none links.old.items)) links.old.items }
{
    let link = &mut links[place];
    link.advance();
}

/// Where a node stands among all nodes.
fn place_of(fixed: &Fixed, v: NodeId) -> usize
    ensures { result ≡ place_of fixed.now v }
{
    place_in(fixed.topology.nodes.as_slice(), v)
}

/// Where a node stands among these, or how many they are where it isn't there.
fn place_in(nodes: &[NodeKey], v: NodeId) -> usize
    ensures { result ≡ place_in nodes.now v }
{
    'nodes: for (place, node) in nodes.iter().enumerate() {
        if node.id.0 == v.0 {
            return place;
        }
    }
    nodes.len()
}
