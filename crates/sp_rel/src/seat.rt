// The memory of a flow before it is active: taken first, so that what follows can't be refused.
ghost use Rattle.std.specs.Prelude.{◌≡◌, IfOk, true, false};

use crate::held::Held;
use sp_base::{Flow, Memory, NodeId};
use sp_flow::{FlowBuf, Inbox};
use std::alloc::Global;
use std::marker::Model;

/// The memory for the messages of a flow at a node, or none where the flow has it already.
#[derive(Debug, Drop)]
pub struct Seat {
    me: NodeId,
    bound: u16,
    flow: Flow,
    pub(crate) held: Held,
}

impl Model for Seat {
    ghost use Rattle.sp_rel.specs.Seats.{SeatState};
    ghost use Rattle.sp_rel.specs.Sound.{FitsNew, seat_of};

    ghost Value = { SeatState };

    ghost view = { λ s. seat_of s.me s.bound s.flow s.held };

    ghost invariant = { λ s. FitsNew s.me s.bound s.flow s.held };
}

impl Seat {
    /// The memory of a flow for at most `bound` messages at this node: an inbox where the node is its destination, else a list.
    pub fn take(alloc: Global, me: NodeId, bound: u16, flow: Flow) -> Result<Seat, Memory>
        ensures { IfOk result (λ seat. seat ≡ record { me = me; bound = bound; flow = flow; holds = true }) }
    {
        let held = if flow.dst.0 == me.0 {
            Held::End(Inbox::new(alloc, bound)?)
        } else {
            Held::Relay(FlowBuf::new(alloc, bound)?)
        };
        Ok(Seat {
            me,
            bound,
            flow,
            held,
        })
    }

    /// No memory: the flow is active.
    pub fn none(me: NodeId, bound: u16, flow: Flow) -> Seat
        ensures { result ≡ record { me = me; bound = bound; flow = flow; holds = false } }
    {
        Seat {
            me,
            bound,
            flow,
            held: Held::Idle,
        }
    }
}
