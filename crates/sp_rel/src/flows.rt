// The flows at a node, a row for each, and where a row stands. Beside the rows stand their flags, which the cycles go over.
ghost use Rattle.std.specs.Prelude.{◌≡◌, ◌≤◌, All, IfOk, IfSome, IfNone, false, length, map, position, replicate};
ghost use Rattle.sp_base.specs.declared.limits.TheConstants.{MAX_SEQ};
ghost use Rattle.sp_rules.specs.Flow.{IsStanding, is_flow, no_flow};
ghost use Rattle.sp_rules.specs.Rel.{flow_in};
ghost use Rattle.sp_rel.specs.Places.{IsPlace, place_in};
ghost use Rattle.sp_rel.specs.Tables.{idle_row};

use crate::place::Place;
use crate::row::{FlowRow, Numbers};
use sp_base::{Flow, Memory, NodeId};
use std::alloc::Global;
use std::marker::Model;

/// The flows at a node.
#[derive(Debug, Drop)]
pub(crate) struct Flows {
    me: NodeId,
    bound: u16,
    pub(crate) rows: Vec<FlowRow>,
    /// Which of them are active.
    pub(crate) active: Vec<bool>,
    /// Which of them end here and owe an acknowledgement.
    pub(crate) due: Vec<bool>,
}

impl Model for Flows {
    ghost use Rattle.sp_rel.specs.Tables.{AreSound, FlowsState, states};

    ghost Value = { FlowsState };

    ghost view = { λ f. record { me = f.me; bound = f.bound; flows = states f.rows.items } };

    ghost invariant = { λ f. AreSound f.me f.bound f.rows.items f.active.items f.due.items };
}

impl Flows {
    /// A row for each of these flows, of which none is active.
    pub fn new(alloc: Global, me: NodeId, bound: u16, flows: &[Flow]) -> Result<Flows, Memory>
        ensures { IfOk result (λ t. t ≡ record { me = me; bound = bound; flows = map no_flow flows.now }) }
    {
        Ok(Flows {
            me,
            bound,
            rows: idle_rows(alloc, me, bound, flows)?,
            active: no_flags(alloc, flows.len())?,
            due: no_flags(alloc, flows.len())?,
        })
    }

    /// This node.
    pub fn me(&self) -> NodeId
        ensures { result ≡ self.now.me }
    {
        self.me
    }

    /// How many messages of each flow are kept here.
    pub fn bound(&self) -> u16
        ensures { result ≡ self.now.bound }
    {
        self.bound
    }

    /// Where the row of a flow stands.
    pub fn place(&self, flow: Flow) -> Place
        ensures { result ≡ place_in self.now.flows flow }
    {
        Place {
            flow,
            at: seek(self.rows.as_slice(), flow),
        }
    }

    /// The row in this place.
    #[tactic(auto, using(crate::proofs::FlowLemmas::read))]
    pub fn row(&self, place: Place) -> Option<&FlowRow>
        requires place { IsPlace self.now.flows place }
        ensures there { IfSome result (λ row. row.now.state ≡ flow_in self.now.flows place.flow) }
        ensures none { IfNone result (flow_in self.now.flows place.flow ≡ no_flow place.flow) }
    {
        match place.at {
            Some(at) => Some(&self.rows[at]),
            None => None,
        }
    }

    /// Where the flow of this place stands.
    pub fn numbers(&self, place: Place) -> Numbers
        requires place { IsPlace self.now.flows place }
        ensures active { result.active ≡ (flow_in self.now.flows place.flow).active }
        ensures base { result.base ≡ (flow_in self.now.flows place.flow).at.base }
        ensures have { result.have ≡ (flow_in self.now.flows place.flow).at.have }
        ensures waiting { result.waiting ≡ length (flow_in self.now.flows place.flow).inbox }
        ensures sound { result.base ≤ result.have }
        ensures small { result.have ≤ MAX_SEQ }
    {
        self.recall();
        match self.row(place) {
            Some(row) => row.numbers(),
            None => FlowRow::new(self.me, self.bound, place.flow).numbers(),
        }
    }

    /// For the prover alone, it does nothing when it runs: what always holds of the flows.
    pub fn recall(&self)
        ensures { All (IsStanding self.now.me self.now.bound) self.now.flows }
    {
        let _rows = &self.rows;
    }
}

/// The first row of a flow.
fn seek(rows: &[FlowRow], flow: Flow) -> Option<usize>
    ensures { result ≡ position (λ row. is_flow flow row.state) rows.now }
{
    rows.iter().position(|row| row.is_of(flow))
}

/// A row for each of these flows, of which none is active.
fn idle_rows(alloc: Global, me: NodeId, bound: u16, flows: &[Flow]) -> Result<Vec<FlowRow>, Memory>
    ensures { IfOk result (λ rows. rows.items ≡ map (idle_row me bound) flows.now) }
{
    let rows = flows
        .iter()
        .map(|flow| FlowRow::new(me, bound, *flow))
        .collect(alloc)?;
    Ok(rows)
}

/// So many flags of which none is set.
fn no_flags(alloc: Global, count: usize) -> Result<Vec<bool>, Memory>
    ensures { IfOk result (λ flags. flags.items ≡ replicate count false) }
{
    Ok(vec![in alloc; false; count]?)
}
