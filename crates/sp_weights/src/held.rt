// The rows of updates, and where each stands.
ghost use Rattle.std.specs.Prelude.{◌≡◌, ◌<◌, ◌*◌, IfSome, length, option_copied};
ghost use Rattle.sp_rules.specs.Weights.{held_in, row_in, row_of, seq_of, weight_of};
ghost use Rattle.sp_weights.specs.Sound.{effective_by};

use sp_base::{EdgeId, NodeId};
use sp_msg::{Body, Kept};
use sp_topology::Edge;

/// The row of an end of this edge. None exactly where the node is no end of it.
pub fn row_of(id: EdgeId, edge: &Edge, end: NodeId) -> Option<usize>
    ensures { result ≡ row_of id.0 edge.now end.0 }
{
    if edge.low.0 == end.0 {
        Some(2 * id.0 as usize)
    } else if edge.high.0 == end.0 {
        Some(2 * id.0 as usize + 1)
    } else {
        None
    }
}

/// The row of an end of an edge. None exactly where there is no such edge, or the node is no end of it.
pub fn row_in(edges: &[Edge], id: EdgeId, end: NodeId) -> Option<usize>
    ensures row { result ≡ row_in edges.now id.0 end.0 }
{
    match edges.get(id.0 as usize) {
        Some(edge) => row_of(id, edge, end),
        None => None,
    }
}

/// The update that a row holds.
pub fn held_in(rows: &[Option<Kept>], row: usize) -> Option<&Kept>
    ensures { option_copied result ≡ held_in rows.now row }
{
    match rows.get(row) {
        Some(held) => held.as_ref(),
        None => None,
    }
}

/// The number of the update that a row holds, 0 where it holds none.
pub fn seq_in(rows: &[Option<Kept>], row: usize) -> u64
    ensures { result ≡ seq_of (held_in rows.now row) }
{
    match held_in(rows, row) {
        Some(kept) => match &kept.body {
            Body::Weight(update) => update.seq,
            _ => 0,
        },
        None => 0,
    }
}

/// The weight of the update that a row holds, 0 where it holds none.
pub fn weight_in(rows: &[Option<Kept>], row: usize) -> u32
    ensures { result ≡ weight_of (held_in rows.now row) }
{
    match held_in(rows, row) {
        Some(kept) => match &kept.body {
            Body::Weight(update) => update.weight,
            _ => 0,
        },
        None => 0,
    }
}

/// The weight of an edge by these minima and by what the rows hold: the greatest of the administrator's minimum and the last update of each end.
pub fn effective_by(least: &[u32], rows: &[Option<Kept>], edge: EdgeId) -> u32
    requires { edge.0 < length least.now }
    ensures { result ≡ effective_by least.now rows.now edge.0 }
{
    let row = 2 * edge.0 as usize;
    let low = weight_in(rows, row);
    let high = weight_in(rows, row + 1);
    least[edge.0 as usize].max(low.max(high))
}
