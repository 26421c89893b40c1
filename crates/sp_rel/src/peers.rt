// What a node keeps of its neighbours: the flow that went to each last, and what each reported. Rows are only ever replaced.
ghost use Rattle.std.specs.Prelude.{◌≡◌, IfOk, Some, map, position};
ghost use Rattle.sp_rules.specs.Rel.{is_peer, is_view, new_peer, no_view, no_views, peer_in, put_peer, told, view_in};
ghost use Rattle.sp_rules.specs.Rel.{view_less, viewed, views_less};

use crate::view::View;
use sp_base::{Cursor, Flow, Memory, NodeId};
use std::alloc::Global;
use std::marker::Model;

/// What is kept of a neighbour.
#[derive(Debug, Drop)]
pub(crate) struct PeerRow {
    peer: NodeId,
    cursor: Cursor,
    views: Vec<View>,
}

impl Model for PeerRow {
    ghost use Rattle.sp_rules.specs.Rel as rel;

    ghost Value = { rel.RelPeer };

    ghost view = { λ p. record { peer = p.peer; last = p.cursor; views = p.views.items } };
}

impl PeerRow {
    /// A neighbour that reported nothing of these flows.
    fn new(alloc: Global, flows: &[Flow], peer: NodeId) -> Result<PeerRow, Memory>
        ensures { IfOk result (λ row. row ≡ new_peer flows.now peer) }
    {
        Ok(PeerRow {
            peer,
            cursor: Cursor::start(),
            views: no_views(alloc, flows)?,
        })
    }

    fn is_of(&self, v: NodeId) -> bool
        ensures { result ≡ is_peer v self.now }
    {
        self.peer.0 == v.0
    }

    /// The place of the flow that went to it last.
    fn last(&self) -> Cursor
        ensures { result ≡ self.now.last }
    {
        self.cursor
    }

    /// What it reported last of a flow.
    #[tactic(auto, using(sp_base::proofs::RowLemmas::placed))]
    fn view(&self, flow: Flow) -> View
        ensures { result ≡ view_in self.now.views flow }
    {
        match self.place(flow) {
            Some(place) => self.views[place],
            None => View::none(flow),
        }
    }

    /// It reported these numbers of a flow.
    #[tactic(auto, using(sp_base::proofs::RowLemmas::placed))]
    fn tell(&mut self, flow: Flow, base: u64, have: u64)
        ensures { self.new ≡ told self.old flow base have }
    {
        if let Some(place) = self.place(flow) {
            self.views[place] = View::of(flow, base, have);
        }
    }

    /// The flow in this place went to it.
    fn serve(&mut self, place: usize)
        ensures { self.new ≡ record self.old { last = Some place } }
    {
        self.cursor.moved(place);
    }

    /// Another life of a node began: nothing was reported of the flows with it as an end.
    fn restart(&mut self, node: NodeId)
        ensures { self.new ≡ views_less node self.old }
    {
        restart_views(&mut self.views, node);
    }

    /// Nothing was reported.
    fn forget(&mut self)
        ensures { self.new ≡ no_views self.old }
    {
        clear_views(&mut self.views);
    }

    fn place(&self, flow: Flow) -> Option<usize>
        ensures { result ≡ position (is_view flow) self.now.views }
    {
        self.views.iter().position(|view| view.is_of(flow))
    }
}

/// The neighbours of a node.
#[derive(Debug, Drop)]
pub(crate) struct Peers {
    rows: Vec<PeerRow>,
}

impl Model for Peers {
    ghost use Rattle.std.specs.Prelude.{List};
    ghost use Rattle.sp_rules.specs.Rel as rel;

    ghost Value = { List rel.RelPeer };

    ghost view = { λ p. p.rows.items };
}

impl Peers {
    /// A row for each of these neighbours.
    pub fn new(alloc: Global, flows: &[Flow], neighbours: &[NodeId]) -> Result<Peers, Memory>
        ensures { IfOk result (λ peers. peers ≡ map (new_peer flows.now) neighbours.now) }
    {
        let mut rows = Vec::with_capacity(alloc, neighbours.len())?;
        'peers: for peer in neighbours {
            rows.push(PeerRow::new(alloc, flows, *peer)?)?;
        }
        Ok(Peers { rows })
    }

    /// The place of the flow that went to a neighbour last.
    #[tactic(auto, using(sp_base::proofs::RowLemmas::placed))]
    pub fn last(&self, v: NodeId) -> Cursor
        ensures { result ≡ (peer_in self.now v).last }
    {
        match self.place(v) {
            Some(place) => self.rows[place].last(),
            None => Cursor::start(),
        }
    }

    /// What a neighbour reported last of a flow.
    #[tactic(auto, using(sp_base::proofs::RowLemmas::placed))]
    pub fn view(&self, v: NodeId, flow: Flow) -> View
        ensures { result ≡ view_in (peer_in self.now v).views flow }
    {
        match self.place(v) {
            Some(place) => self.rows[place].view(flow),
            None => View::none(flow),
        }
    }

    /// A neighbour reported these numbers of a flow.
    #[tactic(auto, using(sp_base::proofs::RowLemmas::placed))]
    pub fn tell(&mut self, v: NodeId, flow: Flow, base: u64, have: u64)
        ensures { self.new ≡ put_peer self.old v (told (peer_in self.old v) flow base have) }
    {
        if let Some(place) = self.place(v) {
            self.rows[place].tell(flow, base, have);
        }
    }

    /// The flow in this place went to a neighbour.
    #[tactic(auto, using(sp_base::proofs::RowLemmas::placed))]
    pub fn serve(&mut self, v: NodeId, place: usize)
        ensures { self.new ≡ put_peer self.old v (record (peer_in self.old v) { last = Some place }) }
    {
        if let Some(at) = self.place(v) {
            self.rows[at].serve(place);
        }
    }

    /// Another life of a node began: no neighbour reported of the flows with it as an end.
    pub fn restart(&mut self, node: NodeId)
        ensures { self.new ≡ map (views_less node) self.old }
    {
        restart_peers(&mut self.rows, node);
    }

    /// Another life of a neighbour began: it reported nothing.
    #[tactic(auto, using(sp_base::proofs::RowLemmas::placed))]
    pub fn forget(&mut self, v: NodeId)
        ensures { self.new ≡ put_peer self.old v (no_views (peer_in self.old v)) }
    {
        if let Some(place) = self.place(v) {
            self.rows[place].forget();
        }
    }

    fn place(&self, v: NodeId) -> Option<usize>
        ensures { result ≡ position (is_peer v) self.now }
    {
        self.rows.iter().position(|row| row.is_of(v))
    }
}

/// Nothing was reported of these flows.
fn no_views(alloc: Global, flows: &[Flow]) -> Result<Vec<View>, Memory>
    ensures { IfOk result (λ views. views.items ≡ map no_view flows.now) }
{
    let views = flows.iter().map(|flow| View::none(*flow)).collect(alloc)?;
    Ok(views)
}

/// Nothing was reported by these neighbours of the flows with this node as an end.
fn restart_peers(rows: &mut [PeerRow], node: NodeId)
    ensures { rows.new ≡ map (views_less node) rows.old }
{
    'rows: for row in rows.iter_mut() {
        row.restart(node);
    }
}

/// Nothing was reported, where the flow has this node as an end.
fn restart_views(views: &mut [View], node: NodeId)
    ensures { views.new ≡ map (view_less node) views.old }
{
    'views: for view in views.iter_mut() {
        view.restart(node);
    }
}

/// Nothing was reported.
fn clear_views(views: &mut [View])
    ensures { views.new ≡ map (λ w. no_view (viewed w)) views.old }
{
    'views: for view in views.iter_mut() {
        view.clear();
    }
}
