// What becomes of flows where another life of a node begins, and where nodes are removed. No call takes memory.
ghost use Rattle.std.specs.Prelude.{◌≡◌, ◌<◌, ◌^◌, ◌≤◌, count_by, length, map, vec_capacity};
ghost use Rattle.std.specs.List.{flat_map};
ghost use Rattle.sp_rel.specs.Fates.{AreSoundStill, end_of, ended_row, flow_after, is_ended, row_after};
ghost use Rattle.sp_rel.specs.Places.{IsPlace};
ghost use Rattle.sp_rel.specs.declared.place.Place.{Place};
ghost use Rattle.sp_rules.specs.Rel.{closed, closed_effects, restart_effects, restarted, unheard};
ghost use Rattle.sp_rules.specs.Told.{told};
ghost use Rattle.sp_rules.specs.declared.kflow.FlowKind.{FlowKind};

use crate::fate::Fate;
use crate::flows::Flows;
use crate::row::FlowRow;
use crate::table::RelTable;
use sp_base::{NodeId, push_in_room};
use sp_msg::Effects;
use sp_rules::FlowKind;

impl Flows {
    /// How many active flows end where this comes over them.
    pub fn end_count(&self, fate: &Fate<'_>) -> usize
        ensures count { (kind : FlowKind) → result ≡ length (flat_map (end_of kind fate.now) self.now.flows) }
        ensures few { result < 2 ^ 63 }
    {
        ended_in(self.rows.as_slice(), fate)
    }

    /// It comes over each flow, and those that were active and end are told as flows of this kind, in order.
    pub fn meet(&mut self, kind: FlowKind, fate: &Fate<'_>, effects: &mut Effects)
        requires { length (flat_map (end_of kind fate.now) self.old.flows) ≤ effects.old.room }
        ensures flows { self.new ≡ record self.old { flows = map (flow_after fate.now) self.old.flows } }
        ensures told { effects.new ≡ told effects.old (flat_map (end_of kind fate.now) self.old.flows) }
    {
        tell_ended(self.rows.as_slice(), kind, fate, effects);
        meet_rows(&mut self.rows, &mut self.active, &mut self.due, fate);
    }

    /// How many flows are active.
    pub fn active_count(&self) -> usize
        ensures count { result ≡ count_by (λ f. f.active) self.now.flows }
        ensures few { result < 2 ^ 63 }
    {
        number_on(self.active.as_slice())
    }
}

impl RelTable {
    /// How many flows end where another life of this node begins: the active ones with it as an end. It takes no memory.
    pub fn ended_count(&self, node: NodeId) -> usize
        ensures count { (kind : FlowKind) → result ≡ length (restart_effects kind self.now node) }
        ensures few { result < 2 ^ 63 }
    {
        self.flows.end_count(&Fate::Restarted(node))
    }

    /// Another life of a node began: each flow with it as an end is as before its first message, and no neighbour reported of it. Those of them that were
    /// active are told as flows of this kind, in order. Each place stays that of its flow. It takes no memory.
    pub fn restart(&mut self, kind: FlowKind, node: NodeId, effects: &mut Effects)
        requires room { length (restart_effects kind self.old node) ≤ effects.old.room }
        ensures table { self.new ≡ restarted self.old node }
        ensures told { effects.new ≡ told effects.old (restart_effects kind self.old node) }
        ensures places { (place : Place) → IsPlace self.old.flows place → IsPlace self.new.flows place }
    {
        self.flows.meet(kind, &Fate::Restarted(node), effects);
        self.peers.restart(node);
    }

    /// Another life of a neighbour began: it reported nothing. Each place stays that of its flow. It takes no memory.
    pub fn forget(&mut self, neighbour: NodeId)
        ensures table { self.new ≡ unheard self.old neighbour }
        ensures places { (place : Place) → IsPlace self.old.flows place → IsPlace self.new.flows place }
    {
        self.peers.forget(neighbour);
    }

    /// How many flows are active.
    pub fn active(&self) -> usize
        ensures count { result ≡ count_by (λ f. f.active) self.now.flows }
        ensures few { result < 2 ^ 63 }
    {
        self.flows.active_count()
    }

    /// From now on these nodes are removed: each active flow with one of them as an end ends, and is told as one of this kind, in order. Its inbox can still
    /// be taken. Each place stays that of its flow. It takes no memory.
    pub fn end(&mut self, kind: FlowKind, removed: &[NodeId], effects: &mut Effects)
        requires few { length removed.now ≤ length self.old.nodes }
        requires room { count_by (λ f. f.active) self.old.flows ≤ effects.old.room }
        ensures table { self.new ≡ closed self.old removed.now }
        ensures told { effects.new ≡ told effects.old (closed_effects kind self.old removed.now) }
        ensures places { (place : Place) → IsPlace self.old.flows place → IsPlace self.new.flows place }
    {
        refill(&mut self.removed, removed);
        self.flows.meet(kind, &Fate::Removed(removed), effects);
    }
}

/// These nodes are removed from now on. It takes no memory.
fn refill(removed: &mut Vec<NodeId>, nodes: &[NodeId])
    requires { length nodes.now ≤ vec_capacity removed.old }
    ensures items { removed.new.items ≡ nodes.now }
    ensures capacity { vec_capacity removed.new ≡ vec_capacity removed.old }
{
    removed.clear();
    'nodes: for node in nodes {
        push_in_room(removed, *node);
    }
}

/// How many of these flows are active and end.
fn ended_in(rows: &[FlowRow], fate: &Fate<'_>) -> usize
    ensures count { result ≡ count_by (is_ended fate.now) rows.now }
    ensures few { result < 2 ^ 63 }
{
    rows.iter().filter(|row| row.is_ended(fate)).count()
}

/// How many of these flags are set.
fn number_on(flags: &[bool]) -> usize
    ensures count { result ≡ count_by (λ flag. flag) flags.now }
    ensures few { result < 2 ^ 63 }
{
    flags.iter().filter(|flag| **flag).count()
}

/// Tells of those flows of this kind that are active and end, in order.
fn tell_ended(rows: &[FlowRow], kind: FlowKind, fate: &Fate<'_>, effects: &mut Effects)
    requires { length (flat_map (ended_row kind fate.now) rows.now) ≤ effects.old.room }
    ensures { effects.new ≡ told effects.old (flat_map (ended_row kind fate.now) rows.now) }
{
    'rows: for row in rows {
        row.tell_end(kind, fate, effects);
    }
}

/// It comes over each flow, and the flags beside the rows are those of the rows.
fn meet_rows(rows: &mut Vec<FlowRow>, active: &mut Vec<bool>, due: &mut Vec<bool>, fate: &Fate<'_>)
    requires active { length active.old.items ≡ length rows.old.items }
    requires due { length due.old.items ≡ length rows.old.items }
    ensures rows { rows.new.items ≡ map (row_after fate.now) rows.old.items }
    ensures sound { AreSoundStill rows.old.items active.old.items due.old.items rows.new.items active.new.items due.new.items }
{
    'rows: for at in 0..rows.len() {
        let row = &mut rows[at];
        row.meet(fate);
        active[at] = row.is_active();
        due[at] = row.is_due();
    }
}
