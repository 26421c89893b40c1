// A client's message on paths: the mask that stays where messages wait, and what is kept of it.
ghost use Rattle.std.specs.Prelude.{◌≡◌, position};
ghost use Rattle.sp_rel.specs.Seated.{IsSeated};
ghost use Rattle.sp_rules.specs.Changes.{FitsAFormat};
ghost use Rattle.sp_rules.specs.Flow.{flow_said};
ghost use Rattle.sp_rules.specs.Kflow.{IsKrel, IsNextOwn, is_row_of, mask_said, paths_to, pushed, put_paths, room, waiting_mask};

use crate::table::KTable;
use sp_base::NodeId;
use sp_msg::{Body, Kept, Mask, SendRefused};
use sp_rel::{RelRefused, Seat};
use sp_rules::{KRoom, PathsTo};

impl KTable {
    /// The number of the next message of a client to a node on so many paths, and the mask that stays, where one does. `Busy` tells on how many paths
    /// messages wait that went on another number of them.
    pub fn room(&self, dst: NodeId, count: u8) -> Result<KRoom, SendRefused>
        ensures { result ≡ room self.now dst count }
    {
        let seq = match self.flows.room(dst) {
            Ok(seq) => seq,
            Err(RelRefused::BadEnd) => return Err(SendRefused::BadEnd),
            Err(RelRefused::Full { base, have }) => return Err(SendRefused::Full { base, have }),
            Err(RelRefused::Memory) => return Err(SendRefused::Memory),
        };
        let paths = self.paths_to(dst);
        if self.flows.is_waiting(dst) && paths != count {
            return Err(SendRefused::Busy { paths });
        }
        Ok(KRoom {
            seq,
            mask: self.waiting_mask(dst),
        })
    }

    /// The mask of the messages to a node that wait for their acknowledgement. None where none waits.
    pub fn waiting_mask(&self, dst: NodeId) -> Option<Mask>
        ensures { result ≡ waiting_mask self.now dst }
    {
        let message = self.flows.first_waiting(dst)?;
        mask_said(&message.body)
    }

    /// Keeps a client's message under the number and the mask that `room` gave for so many paths.
    pub fn push(&mut self, message: Kept, count: u8, seat: Seat)
        requires next { IsNextOwn self.old count message.body }
        requires fields { FitsAFormat message.body }
        requires seat { IsSeated self.old.flows (flow_said message.body) seat }
        ensures { self.new ≡ pushed self.old message count }
    {
        let dst = dst_said(&message.body);
        self.flows.push(message, seat);
        self.put_paths(dst, count);
    }

    /// How many paths the last message to a node asked for.
    #[tactic(auto, using(sp_base::proofs::RowLemmas::placed))]
    fn paths_to(&self, dst: NodeId) -> u8
        ensures { result ≡ paths_to self.now dst }
    {
        match row_place(self.paths.as_slice(), dst) {
            Some(place) => self.paths[place].count,
            None => 0,
        }
    }

    /// From now on a message to a node went on so many paths.
    #[tactic(auto, using(sp_base::proofs::RowLemmas::placed))]
    fn put_paths(&mut self, dst: NodeId, count: u8)
        ensures { self.new ≡ record self.old { paths = put_paths self.old.paths dst count } }
    {
        if let Some(place) = row_place(self.paths.as_slice(), dst) {
            self.paths[place] = PathsTo { dst, count };
        }
    }
}

/// Where the row of a node stands.
fn row_place(rows: &[PathsTo], dst: NodeId) -> Option<usize>
    ensures { result ≡ position (is_row_of dst) rows.now }
{
    rows.iter().position(|row| row.dst.0 == dst.0)
}

/// The mask of a message. Only one on paths has one.
fn mask_said(body: &Body) -> Option<Mask>
    ensures { result ≡ mask_said body.now }
{
    match body {
        Body::Krel(krel) => Some(krel.mask),
        _ => None,
    }
}

/// The destination of a message on paths.
fn dst_said(body: &Body) -> NodeId
    requires { IsKrel body.now }
    ensures { result ≡ (flow_said body.now).dst }
{
    match body {
        Body::Krel(krel) => krel.dst,
        _ => unreachable!(),
    }
}
