// The edges of several paths as one mask.
ghost use Rattle.std.specs.Prelude.{◌≡◌, ◌≤◌, All, length};
ghost use Rattle.sp_base.specs.declared.limits.TheConstants.{MAX_EDGES_2};
ghost use Rattle.sp_msg.specs.Masks.{bits};
ghost use Rattle.sp_routes.specs.Joined.{HasFlag};
ghost use Rattle.sp_rules.specs.Masks.{IsMaskOf};

use crate::joined::{FLAGS, join_paths, mask_of_joined};
use sp_base::{Listed, NodeId};
use sp_msg::Mask;
use sp_topology::Edge;

/// The edges along which some path goes, whichever way. No list of edges is gone through for each step: the steps join their nodes, and each
/// edge is asked once whether its ends are joined.
pub fn mask_of_all(edges: &[Edge], paths: &[Listed<NodeId>]) -> Mask
    requires ends { All HasFlag edges.now }
    requires few { length edges.now ≤ MAX_EDGES_2 }
    ensures { IsMaskOf edges.now paths.now (bits result) }
{
    let mut flags = [false; FLAGS];
    join_paths(&mut flags, paths);
    mask_of_joined(edges, &flags)
}
