// What a neighbour reported last of a flow.
ghost use Rattle.std.specs.Prelude.{◌≡◌};
ghost use Rattle.sp_rules.specs.Rel.{is_end, is_view, no_view, view_less, viewed};

use sp_base::{Flow, NodeId};
use std::marker::Model;
use std::mem::size_of;

/// The numbers of a flow that a neighbour reported last, as they came.
#[derive(Clone, Copy, Debug)]
pub(crate) struct View {
    pub src: NodeId,
    pub dst: NodeId,
    pub base: u64,
    pub have: u64,
}

/// How many bytes the view of a flow takes.
pub const VIEW_BYTES: usize = size_of::<View>();

const _: () = prove!(VIEW_BYTES <= 32);

impl Model for View {
    ghost use Rattle.sp_rules.specs.Rel as rel;

    ghost Value = { rel.View };

    ghost view = { λ w. record { src = w.src; dst = w.dst; base = w.base; have = w.have } };

    ghost inverse = { λ w. record { src = w.src; dst = w.dst; base = w.base; have = w.have } };
}

impl View {
    /// Nothing was reported of the flow.
    pub fn none(flow: Flow) -> View
        ensures { result ≡ no_view flow }
    {
        View::of(flow, 0, 0)
    }

    pub fn of(flow: Flow, base: u64, have: u64) -> View
        ensures { result ≡ record { src = flow.src; dst = flow.dst; base = base; have = have } }
    {
        View {
            src: flow.src,
            dst: flow.dst,
            base,
            have,
        }
    }

    /// Whether it is of this flow.
    pub fn is_of(&self, flow: Flow) -> bool
        ensures { result ≡ is_view flow self.now }
    {
        self.src.0 == flow.src.0 && self.dst.0 == flow.dst.0
    }

    /// Its flow.
    fn flow(&self) -> Flow
        ensures { result ≡ viewed self.now }
    {
        Flow {
            src: self.src,
            dst: self.dst,
        }
    }

    /// Nothing was reported.
    pub fn clear(&mut self)
        ensures { self.new ≡ no_view (viewed self.old) }
    {
        *self = View::none(self.flow());
    }

    /// Nothing was reported, where the flow has this node as an end.
    pub fn restart(&mut self, node: NodeId)
        ensures { self.new ≡ view_less node self.old }
    {
        if is_end(node, self.flow()) {
            self.clear();
        }
    }
}

/// Whether the node is an end of the flow.
pub fn is_end(node: NodeId, flow: Flow) -> bool
    ensures { result ≡ is_end node flow }
{
    flow.src.0 == node.0 || flow.dst.0 == node.0
}
