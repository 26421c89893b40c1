// Whether a document that a node adopted from a frame is forged: no event published its version with its weights.
ghost use Rattle.std.specs.Cmp.Lexicographic.{pointwise};
ghost use Rattle.std.specs.Prelude.{◌≡◌, IfOk, nat_eq, option_map, slice_get};
ghost use Rattle.sp_frame.specs.Frames.{opened_in, sections_part};
ghost use Rattle.sp_frame.specs.Sections.{sections_of_in};
ghost use Rattle.sp_rules.specs.Topologies.{weights_in};
ghost use Rattle.sp_runs.specs.Forgery.{is_published, lists_in};
ghost use Rattle.sp_schedule_events.specs.Documents.{list_in};
ghost use Rattle.sp_forgery.specs.Brought.{as_brought, brought_at, is_adopted, is_adoption, is_fresh, read_there, saying, topology_in, unpublished};

use crate::objects::Known;
use sp_base::Memory;
use sp_frame::Frame;
use sp_rules::{DocumentAnswer, Item, LinkReply};
use sp_schedule_events::Event;
use sp_topology::{Edge, Topology, TopologyRefused};
use std::alloc::Global;

/// A document that a datagram brings, as it stands there, and the topology that it says. It is read before a node takes the datagram, so that what is
/// forged of it is judged without memory.
#[derive(Drop)]
pub struct Brought<'a> {
    document: &'a [u8],
    topology: Topology,
}

/// The document of a datagram. None where it has none that is read. Only want of memory refuses.
pub fn document_of<'a>(
    alloc: Global,
    known: &Known<'_>,
    bytes: &'a [u8],
) -> Result<Option<Brought<'a>>, Memory>
    ensures { IfOk result (λ brought. option_map as_brought brought
        ≡ brought_at (opened_in known.now.scenario.now.format bytes.now)
        (sections_of_in known.now.scenario.now.format known.now.signature_len (sections_part bytes.now))) }
{
    let Ok(frame) = Frame::open_in(bytes, known.scenario.format) else {
        return Ok(None);
    };
    let Ok(sections) = frame.sections(known.signature_len) else {
        return Ok(None);
    };
    match sections.document {
        Some(document) => read_there(alloc, document),
        None => Ok(None),
    }
}

/// The document with the topology that it says. None where it says none.
fn read_there<'a>(alloc: Global, document: &'a [u8]) -> Result<Option<Brought<'a>>, Memory>
    ensures { IfOk result (λ brought. option_map as_brought brought ≡ saying document.now (topology_in document.now)) }
{
    match Topology::read(alloc, document) {
        Ok((topology, _)) => Ok(Some(Brought { document, topology })),
        Err(TopologyRefused::Memory) => Err(Memory),
        Err(_) => Ok(None),
    }
}

/// The document of a datagram that a node answered so, where it is forged.
pub fn forged_document<'a>(
    events: &[Event],
    link: &LinkReply,
    items: &[Item],
    brought: &Option<Brought<'a>>,
) -> Option<&'a [u8]>
    ensures { option_map (λ d. d.now) result ≡ unpublished events.now link.now items.now (option_map as_brought brought.now) }
{
    let Some(brought) = brought else {
        return None;
    };
    if !is_fresh(link) || !is_adopted(items) || is_handed_out(events, &brought.topology) {
        return None;
    }
    Some(brought.document)
}

fn is_fresh(link: &LinkReply) -> bool
    ensures { result ≡ is_fresh link.now }
{
    matches!(link, LinkReply::Fresh)
}

/// Whether these answers are that a document was adopted.
fn is_adopted(items: &[Item]) -> bool
    ensures { result ≡ is_adopted items.now }
{
    match items.first() {
        Some(item) => is_adoption(*item),
        None => false,
    }
}

fn is_adoption(item: Item) -> bool
    ensures { result ≡ is_adoption item }
{
    matches!(item, Item::Document(DocumentAnswer::Adopted { .. }))
}

/// Whether the administrator handed out this version with these weights.
fn is_handed_out(events: &[Event], topology: &Topology) -> bool
    ensures { result ≡ is_published events.now topology.now.version (weights_in topology.now.edges) }
{
    if topology.version < 2 {
        return false;
    }
    match list_at(events, topology.version as usize - 2) {
        Some(weights) => have_weights(weights, topology.edges.as_slice()),
        None => false,
    }
}

/// The list of weights in this place of those that were published.
fn list_at<'a>(events: &'a [Event], place: usize) -> Option<&'a [u32]>
    ensures { option_map (λ l. l.now) result ≡ slice_get (lists_in events.now) place }
{
    let mut left = place;
    'events: for event in events {
        let Some(weights) = list_in(event) else {
            continue;
        };
        if left == 0 {
            return Some(weights);
        }
        left -= 1;
    }
    None
}

/// The weights of an event that publishes some.
fn list_in(event: &Event) -> Option<&[u32]>
    ensures { option_map (λ l. l.now) result ≡ list_in event.now }
{
    match event {
        Event::Publish {
            weights: Some(weights),
            ..
        } => Some(weights.as_slice()),
        _ => None,
    }
}

/// Whether these are the weights of the edges.
fn have_weights(weights: &[u32], edges: &[Edge]) -> bool
    ensures { result ≡ pointwise nat_eq weights.now (weights_in edges.now) }
{
    let mut rest = edges;
    'weights: for weight in weights {
        let Some((first, others)) = rest.split_first() else {
            return false;
        };
        if *weight != first.weight {
            return false;
        }
        rest = others;
    }
    rest.is_empty()
}
