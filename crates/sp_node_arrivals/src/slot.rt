// A slot of a frame: its report, its acknowledgement, its messages.
ghost use Rattle.std.specs.Prelude.{length, ◌≡◌, ◌≤◌, ◌+◌, IfOk, IfSome, Some, option_map};
ghost use Rattle.sp_base.specs.declared.limits.TheConstants.{MAX_MESSAGES};
ghost use Rattle.sp_frame.specs.OfFormat.{IsSlotOf};
ghost use Rattle.sp_frame.specs.Views.{as_report};
ghost use Rattle.sp_rel.specs.Places.{IsPlace};
ghost use Rattle.sp_rules.specs.Parts.{flows_of};
ghost use Rattle.sp_rules.specs.Handle.{handle_all, reported_where};
ghost use Rattle.sp_rules.specs.Lives.{are_held};
ghost use Rattle.sp_rules.specs.Pieces.{slot_pieces};
ghost use Rattle.sp_node_arrivals.specs.Arrival.{as_arrival};
ghost use Rattle.sp_node_arrivals.specs.Done.{IsDone};
ghost use Rattle.sp_node_arrivals.specs.Rel.{ground_of};
ghost use Rattle.sp_node_arrivals.specs.Signed.{of_some};
ghost use Rattle.sp_node_arrivals.specs.Slot.{IsSlotReady, slot_checks, slot_items, slot_most};
ghost use Rattle.sp_node_format.specs.Format.{format_of};

use crate::arrival::Arrival;
use crate::row::Row;
use crate::{ack, rel};
use sp_base::{Bytes, Flow, Four, Memory};
use sp_frame::Slot;
use sp_msg::{Effects, Kept};
use sp_node_parts::Parts;
use sp_rel::Seat;
use sp_rules::{FlowKind, Item};
use sp_sign::Checker;
use std::alloc::Global;

/// What is ready of the objects of a slot.
#[derive(Drop)]
pub(crate) struct SlotReady {
    pub ack: Option<(Kept, Seat)>,
    pub rels: Four<Option<(Kept, Bytes, Seat)>>,
}

/// The answers to the objects of a slot.
#[derive(Debug, Drop)]
pub(crate) struct SlotAnswers {
    pub ack: Option<Item>,
    pub rels: Four<Item>,
}

/// Makes the objects of a slot of this kind ready, where there is one.
pub(crate) fn ready(
    alloc: Global,
    at: &Arrival<'_>,
    parts: &Parts,
    checker: &mut Checker,
    kind: FlowKind,
    slot: &Option<Slot<'_>>,
) -> Result<SlotReady, Memory>
    requires format { IfSome slot.now (IsSlotOf at.now.fixed.now.topology.format) }
    requires keys { checker.old.nodes ≡ at.now.fixed.now.topology.nodes }
    ensures ready { IfOk result (λ ready. IfSome slot.now (λ s. IsSlotReady (ground_of (as_arrival at.now) parts.now) (flows_of kind parts.now) s ready)) }
    ensures keys { checker.new.nodes ≡ checker.old.nodes }
    ensures work { checker.new.checks ≤ checker.old.checks
        + of_some (slot_checks (ground_of (as_arrival at.now) parts.now) (flows_of kind parts.now)) slot.now }
    ensures few { checker.new.checks ≤ checker.old.checks + slot_most slot.now }
    ensures short { IfSome slot.now (λ s. length s.rels ≤ MAX_MESSAGES) }
{
    match slot {
        Some(slot) => ready_slot(alloc, at, parts, checker, kind, slot),
        None => Ok(SlotReady {
            ack: None,
            rels: Four::new(),
        }),
    }
}

fn ready_slot(
    alloc: Global,
    at: &Arrival<'_>,
    parts: &Parts,
    checker: &mut Checker,
    kind: FlowKind,
    slot: &Slot<'_>,
) -> Result<SlotReady, Memory>
    requires format { IsSlotOf at.now.fixed.now.topology.format slot.now }
    requires keys { checker.old.nodes ≡ at.now.fixed.now.topology.nodes }
    ensures ready { IfOk result (IsSlotReady (ground_of (as_arrival at.now) parts.now) (flows_of kind parts.now) slot.now) }
    ensures keys { checker.new.nodes ≡ checker.old.nodes }
    ensures work { checker.new.checks ≤ checker.old.checks + slot_checks (ground_of (as_arrival at.now) parts.now) (flows_of kind parts.now) slot.now }
    ensures few { checker.new.checks ≤ checker.old.checks + (1 + length slot.now.rels) }
    ensures short { length slot.now.rels ≤ MAX_MESSAGES }
{
    let _few = slot.rels.len();
    let row = row_of(parts, kind, slot.flow);
    let ack = match &slot.ack {
        Some(object) => ack::ready(alloc, at, parts, checker, row, object)?,
        None => None,
    };
    let moved = ack.is_some();
    let rels = rel::ready_from(alloc, at, parts, checker, row, &slot.rels, 0, moved)?;
    Ok(SlotReady { ack, rels })
}

/// Lets go what was made ready of a slot.
pub(crate) fn leave(ready: SlotReady) {
    rel::leave(ready.rels);
}

/// Takes the slot of this kind of a frame, where it has one, and answers to its objects.
pub(crate) fn admit(
    at: &Arrival<'_>,
    parts: &mut Parts,
    kind: FlowKind,
    slot: &Option<Slot<'_>>,
    ready: SlotReady,
    out: &mut Effects,
) -> SlotAnswers
    requires ready { IfSome slot.now (λ s. IsSlotReady (ground_of (as_arrival at.now) parts.old) (flows_of kind parts.old) s ready) }
    requires room { MAX_MESSAGES ≤ out.old.room }
    ensures done { IsDone
        (handle_all (format_of at.now.fixed.now) (as_arrival at.now) parts.old (slot_pieces kind (option_map as_report slot.now)))
        parts.new (slot_items result) out.old out.new }
    ensures short { IfSome slot.now (λ s. length s.rels ≤ MAX_MESSAGES) }
    ensures room { out.old.room ≤ out.new.room + MAX_MESSAGES }
{
    match slot {
        Some(slot) => admit_slot(at, parts, kind, slot, ready, out),
        None => {
            rel::leave(ready.rels);
            SlotAnswers {
                ack: None,
                rels: Four::new(),
            }
        }
    }
}

fn admit_slot(
    at: &Arrival<'_>,
    parts: &mut Parts,
    kind: FlowKind,
    slot: &Slot<'_>,
    ready: SlotReady,
    out: &mut Effects,
) -> SlotAnswers
    requires ready { IsSlotReady (ground_of (as_arrival at.now) parts.old) (flows_of kind parts.old) slot.now ready }
    requires room { MAX_MESSAGES ≤ out.old.room }
    ensures done { IsDone
        (handle_all (format_of at.now.fixed.now) (as_arrival at.now) parts.old (slot_pieces kind (option_map as_report (Some slot.now))))
        parts.new (slot_items result) out.old out.new }
    ensures short { length slot.now.rels ≤ MAX_MESSAGES }
    ensures room { out.old.room ≤ out.new.room + MAX_MESSAGES }
{
    let _few = slot.rels.len();
    let SlotReady { ack, rels } = ready;
    let row = row_of(parts, kind, slot.flow);
    report(at, parts, row, slot);
    let ack = ack::admit(at, parts, row, &slot.ack, ack);
    let rels = rel::admit_from(at, parts, row, &slot.rels, 0, rels, out);
    SlotAnswers { ack, rels }
}

/// The flow of a slot of this kind.
fn row_of(parts: &Parts, kind: FlowKind, flow: Flow) -> Row
    ensures kind { result.kind ≡ kind }
    ensures flow { result.place.flow ≡ flow }
    ensures place { IsPlace (flows_of result.kind parts.now).flows result.place }
{
    Row {
        kind,
        place: parts.flows(kind).place(flow),
    }
}

/// Takes the report of a slot where it names the boots that are held of the ends of its flow.
fn report(at: &Arrival<'_>, parts: &mut Parts, row: Row, slot: &Slot<'_>)
    requires place { IsPlace (flows_of row.kind parts.old).flows row.place }
    requires flow { row.place.flow ≡ slot.now.flow }
    ensures parts { parts.new ≡ reported_where row.kind (are_held parts.old.lives slot.now.flow slot.now.sboot slot.now.dboot) at.now.from
        slot.now.flow slot.now.base slot.now.have parts.old }
    ensures place { IsPlace (flows_of row.kind parts.new).flows row.place }
{
    if parts.lives.are_held(slot.flow, slot.sboot, slot.dboot) {
        parts.report(row.kind, at.from, row.place, slot.base, slot.have);
    }
}
