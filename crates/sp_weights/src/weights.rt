// The updates of weights that a node holds. All memory is taken at the start.
ghost use Rattle.std.specs.Prelude.{◌≡◌, ◌+◌, ◌*◌, ◌<◌, ◌≤◌, IfOk, length, map, option_copied, replicate, slice_index_or, None as Nothing, false, ℕ};
ghost use Rattle.sp_base.specs.declared.limits.TheConstants.{MAX_EDGES_2};
ghost use Rattle.sp_rules.specs.Changes.{FitsAFormat};
ghost use Rattle.sp_rules.specs.Handle.{offer_of};
ghost use Rattle.sp_rules.specs.Topologies.{weights_in};
ghost use Rattle.sp_rules.specs.Weights.{cycle_at, effective, held, is_withdrawn, minimum, moved, next, next_row, next_seq, offer, replaced, start};
ghost use Rattle.sp_topology.specs.Ranges.{IsTopology};
ghost use Rattle.sp_weights.specs.Sound.{effective_by};

use crate::held::{effective_by, held_in, row_in, row_of, seq_in};
use sp_base::{Cursor, EdgeId, Memory, NodeId};
use sp_msg::{Body, Kept, WeightBody};
use sp_rules::Offer;
use sp_topology::{Edge, Topology};
use std::alloc::Global;
use std::marker::Model;

/// The updates of weights that a node holds: at most one of each end of each edge, which is the last.
#[derive(Debug, Drop)]
pub struct Weights {
    edges: Vec<Edge>,
    /// The administrator's minimum of each edge, 0 where it is withdrawn.
    least: Vec<u32>,
    /// A row for each end of each edge, the lower end first.
    rows: Vec<Option<Kept>>,
    /// Which rows hold an update.
    active: Vec<bool>,
    /// For each place of a node the row that went to it last.
    cycles: Vec<Cursor>,
    /// The weight of each edge that is in effect.
    in_effect: Vec<u32>,
}

impl Model for Weights {
    ghost use Rattle.std.specs.Prelude.{length};
    ghost use Rattle.sp_rules.specs.Weights.{WeightState};
    ghost use Rattle.sp_weights.specs.Sound.{IsSound};

    ghost Value = { WeightState };

    ghost view = { λ w. record { edges = w.edges.items; least = w.least.items; rows = w.rows.items; cycles = w.cycles.items } };

    ghost invariant = { λ w. IsSound (length w.edges.items) w.least.items w.rows.items w.active.items w.in_effect.items };
}

impl Weights {
    /// No update is held yet.
    pub fn new(alloc: Global, topology: &Topology) -> Result<Weights, Memory>
        requires { IsTopology topology.now }
        ensures { IfOk result (λ weights. weights ≡ start topology.now) }
    {
        let edges = Vec::from_slice(alloc, topology.edges.as_slice())?;
        let count = 2 * edges.len();
        let rows = empty_rows(alloc, count)?;
        let active = idle_rows(alloc, count)?;
        let cycles = starts(alloc, topology.nodes.as_slice().len())?;
        let least = minima(alloc, edges.as_slice())?;
        let in_effect = minima(alloc, edges.as_slice())?;
        Ok(Weights {
            edges,
            least,
            rows,
            active,
            cycles,
            in_effect,
        })
    }

    /// Whether an update is held when it comes, or why it isn't.
    pub fn offer(&self, update: &WeightBody) -> Offer
        ensures { result ≡ offer self.now update.now }
    {
        let Some(edge) = self.edges.get(update.edge.0 as usize) else {
            return Offer::Foreign;
        };
        let Some(row) = row_of(update.edge, edge, update.origin) else {
            return Offer::Foreign;
        };
        if self.is_withdrawn(update.edge) {
            return Offer::Foreign;
        }
        let min = self.minimum(update.edge);
        if update.weight < min {
            return Offer::Low { min };
        }
        let held = seq_in(self.rows.as_slice(), row);
        if update.seq <= held {
            return Offer::Old { held };
        }
        Offer::New
    }

    /// Holds an update in the place of the one before it.
    pub fn hold(&mut self, kept: Kept)
        requires new { offer_of self.old kept.body ≡ Offer.New }
        requires range { FitsAFormat kept.body }
        ensures { self.new ≡ held self.old kept }
    {
        let Body::Weight(update) = &kept.body else {
            return;
        };
        let edge = update.edge;
        if let Some(row) = row_in(self.edges.as_slice(), edge, update.origin) {
            self.rows[row] = Some(kept);
            self.active[row] = true;
            self.in_effect[edge.0 as usize] = effective_by(
                self.least.as_slice(),
                self.rows.as_slice(),
                edge,
            );
        }
    }

    /// From now on the minima are those of another version of the topology, with the same edges. What is held stays. It takes no memory.
    pub fn replace(&mut self, topology: &Topology)
        requires { length topology.now.edges ≡ length self.old.edges }
        ensures { self.new ≡ replaced self.old (weights_in topology.now.edges) }
    {
        replace_minima(&mut self.least, topology.edges.as_slice());
        weigh_anew(
            &mut self.in_effect,
            self.least.as_slice(),
            self.rows.as_slice(),
        );
    }

    /// How many edges there are. Each has a minimum.
    pub fn edges(&self) -> usize
        ensures edges { result ≡ length self.now.edges }
        ensures minima { result ≡ length self.now.least }
        ensures few { result ≤ MAX_EDGES_2 }
    {
        self.least.len()
    }

    /// The administrator's minimum of an edge, 0 where it is withdrawn.
    pub fn minimum(&self, edge: EdgeId) -> u32
        requires { edge.0 < length self.now.edges }
        ensures { result ≡ minimum self.now edge.0 }
    {
        self.least[edge.0 as usize]
    }

    /// Whether an edge is withdrawn.
    pub fn is_withdrawn(&self, edge: EdgeId) -> bool
        requires { edge.0 < length self.now.edges }
        ensures { result ≡ is_withdrawn self.now edge.0 }
    {
        self.least[edge.0 as usize] == 0
    }

    /// The weight of an edge: the greatest of the administrator's minimum and the last update of each end.
    pub fn effective(&self, edge: EdgeId) -> u32
        requires { edge.0 < length self.now.edges }
        ensures { result ≡ effective self.now edge.0 }
    {
        self.in_effect[edge.0 as usize]
    }

    /// The number of the next update of an end of an edge, which is 1 where there is no such end.
    pub fn next_seq(&self, edge: EdgeId, end: NodeId) -> u64
        ensures { result ≡ next_seq self.now edge.0 end.0 }
    {
        match row_in(self.edges.as_slice(), edge, end) {
            Some(row) => seq_in(self.rows.as_slice(), row) + 1,
            None => 1,
        }
    }

    /// The update that goes next to the node in this place. None exactly where none is held. In a place without a node the cycle never moves.
    pub fn next(&self, v: usize) -> Option<&Kept>
        ensures { option_copied result ≡ next self.now v }
    {
        match self.next_row(v) {
            Some(row) => held_in(self.rows.as_slice(), row),
            None => None,
        }
    }

    /// The update that goes next to the node in this place went there. Nothing changes where none is held.
    pub fn moved(&mut self, v: usize)
        ensures { self.new ≡ moved self.old v }
    {
        if v >= self.cycles.len() {
            return;
        }
        if let Some(row) = self.next_row(v) {
            self.cycles[v].moved(row);
        }
    }

    /// The row that goes next to the node in this place.
    fn next_row(&self, v: usize) -> Option<usize>
        ensures { result ≡ next_row self.now v }
    {
        let cycle = match self.cycles.get(v) {
            Some(cycle) => *cycle,
            None => Cursor::start(),
        };
        cycle.next(self.active.as_slice())
    }
}

/// So many rows that hold nothing.
fn empty_rows(alloc: Global, count: usize) -> Result<Vec<Option<Kept>>, Memory>
    ensures { IfOk result (λ rows. rows.items ≡ replicate count Nothing) }
{
    let mut rows = Vec::with_capacity(alloc, count)?;
    'rows: for _ in 0..count {
        rows.push(None)?;
    }
    Ok(rows)
}

/// As many rows of which none is active.
fn idle_rows(alloc: Global, count: usize) -> Result<Vec<bool>, Memory>
    ensures { IfOk result (λ rows. rows.items ≡ replicate count false) }
{
    Ok(vec![in alloc; false; count]?)
}

/// So many cycles of which none has begun.
fn starts(alloc: Global, count: usize) -> Result<Vec<Cursor>, Memory>
    ensures { IfOk result (λ cycles. cycles.items ≡ replicate count Nothing) }
{
    let mut cycles = Vec::with_capacity(alloc, count)?;
    'cycles: for _ in 0..count {
        cycles.push(Cursor::start())?;
    }
    Ok(cycles)
}

/// The minimum of each of these edges, which is in effect while no update is held.
fn minima(alloc: Global, edges: &[Edge]) -> Result<Vec<u32>, Memory>
    ensures { IfOk result (λ weights. weights.items ≡ map (λ e. e.weight) edges.now) }
{
    Ok(edges.iter().map(|edge| edge.weight).collect(alloc)?)
}

/// The minima become those of these edges.
fn replace_minima(least: &mut Vec<u32>, edges: &[Edge])
    requires { length edges.now ≡ length least.old.items }
    ensures { least.new.items ≡ weights_in edges.now }
{
    'edges: for place in 0..edges.len() {
        least[place] = edges[place].weight;
    }
}

/// The weight of each edge that is in effect under these minima.
fn weigh_anew(in_effect: &mut Vec<u32>, least: &[u32], rows: &[Option<Kept>])
    requires few { length least.now ≤ MAX_EDGES_2 }
    requires enough { length in_effect.old.items ≡ length least.now }
    ensures enough { length in_effect.new.items ≡ length least.now }
    ensures each { (edge : ℕ) → edge < length least.now → slice_index_or in_effect.new.items edge 0 ≡ effective_by least.now rows.now edge }
{
    'edges: for place in 0..least.len() {
        in_effect[place] = effective_by(least, rows, EdgeId(place as u16));
    }
}
