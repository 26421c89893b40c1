// The nodes of a walk along lanes.
ghost use Rattle.std.specs.Prelude.{◌≡◌, ◌<◌, IfOk, length, map};
ghost use Rattle.std.specs.List.{All};
ghost use Rattle.sp_paths.specs.Visits.{path_along};

use crate::lane::Lane;
use sp_base::{Listed, Memory, NodeId};
use std::alloc::Global;
use std::vec::Vec;

/// The path of a walk from `s`: its nodes in their order.
fn nodes_of(alloc: Global, lanes: &[Lane], walk: &[usize], s: NodeId) -> Result<Vec<NodeId>, Memory>
    requires inside { All (λ i. i < length lanes.now) walk.now }
    ensures { IfOk result (λ path. path.items ≡ path_along lanes.now s walk.now) }
{
    let mut path = Vec::with_capacity(alloc, walk.len() / 2 + 2)?;
    path.push(s)?;
    for place in walk {
        let part = lanes[*place].to;
        if part % 2 == 0 {
            path.push(NodeId(part / 2))?;
        }
    }
    Ok(path)
}

/// The paths of walks from `s`.
pub fn paths_of(
    alloc: Global,
    lanes: &[Lane],
    walks: &[Vec<usize>],
    s: NodeId,
) -> Result<Listed<Listed<NodeId>>, Memory>
    requires inside { All (λ walk. All (λ i. i < length lanes.now) walk.items) walks.now }
    ensures { IfOk result (λ paths. paths ≡ map (λ walk. path_along lanes.now s walk.items) walks.now) }
{
    let mut paths = Vec::with_capacity(alloc, walks.len())?;
    for walk in walks {
        paths.push(Listed::from_vec(nodes_of(alloc, lanes, walk.as_slice(), s)?))?;
    }
    Ok(Listed::from_vec(paths))
}
