// Which nodes the steps of paths join, and the edges between these.
ghost use Rattle.std.specs.Prelude.{◌≡◌, ◌≤◌, ◌<◌, ◌*◌, ◌+◌, ◌^◌, ℕ, All, Some, length, slice_get};
ghost use Rattle.sp_base.specs.declared.limits.TheConstants.{MAX_EDGES_2};
ghost use Rattle.sp_graph.specs.Masks.{is_walked};
ghost use Rattle.sp_graph.specs.Walks.{is_between};
ghost use Rattle.sp_routes.specs.Joined.{Adds, HasFlag, flag_place, joins, joins_at};
ghost use Rattle.sp_msg.specs.Masks.{bits};
ghost use Rattle.sp_msg.specs.Views.{names_edge};
ghost use Rattle.sp_rules.specs.Masks.{is_used};

use sp_base::{EdgeId, Listed, MAX_NODES_2, NodeId};
use sp_msg::Mask;
use sp_topology::Edge;

/// The greatest id of a node of a graph, and one more.
const IDS: usize = MAX_NODES_2 as usize + 1;

/// How many flags there are: one for each two ids.
pub const FLAGS: usize = IDS * IDS;

/// The place of the flag of two nodes.
fn flag_place(u: NodeId, v: NodeId) -> usize
    requires { (u.0 < IDS) × (v.0 < IDS) }
    ensures place { result ≡ flag_place u v }
    ensures inside { result < FLAGS }
{
    u.0 as usize * IDS + v.0 as usize
}

/// Two nodes are joined, both ways round. What is no node of a graph has no flag.
fn join(flags: &mut [bool], u: NodeId, v: NodeId)
    requires { length flags.old ≡ FLAGS }
    ensures length { length flags.new ≡ FLAGS }
    ensures adds { Adds flags.old flags.new (is_between u v) }
{
    if u.0 as usize >= IDS || v.0 as usize >= IDS {
        return;
    }
    flags[flag_place(u, v)] = true;
    flags[flag_place(v, u)] = true;
}

/// The nodes of each step of a path are joined.
fn join_steps(flags: &mut [bool], path: &[NodeId])
    requires { length flags.old ≡ FLAGS }
    ensures length { length flags.new ≡ FLAGS }
    ensures adds { Adds flags.old flags.new (λ e. is_walked e path.now) }
{
    let mut rest = path;
    'steps: while rest.len() >= 2 {
        join(flags, rest[0], rest[1]);
        rest = &rest[1..];
    }
}

/// The nodes of each step of the paths are joined.
pub fn join_paths(flags: &mut [bool], paths: &[Listed<NodeId>])
    requires { length flags.old ≡ FLAGS }
    ensures length { length flags.new ≡ FLAGS }
    ensures adds { Adds flags.old flags.new (λ e. is_used paths.now (Some e)) }
{
    'paths: for path in paths {
        join_steps(flags, path.as_slice());
    }
}

/// Whether the ends of the edge are joined.
fn joins(flags: &[bool], edge: &Edge) -> bool
    requires flags { length flags.now ≡ FLAGS }
    requires flag { HasFlag edge.now }
    ensures { result ≡ joins flags.now edge.now }
{
    flags[flag_place(edge.low, edge.high)]
}

/// The mask of one edge.
fn bit(place: usize) -> Mask
    requires { place < MAX_EDGES_2 }
    ensures { bits result ≡ 2 ^ place }
{
    Mask::of(EdgeId(place as u16))
}

/// The edges whose ends are joined.
pub fn mask_of_joined(edges: &[Edge], flags: &[bool]) -> Mask
    requires flags { length flags.now ≡ FLAGS }
    requires few { length edges.now ≤ MAX_EDGES_2 }
    requires ends { All HasFlag edges.now }
    ensures { (place : ℕ) → names_edge (bits result) place ≡ joins_at flags.now (slice_get edges.now place) }
{
    let mut mask = Mask::none();
    'edges: for place in 0..edges.len() {
        if joins(flags, &edges[place]) {
            mask = mask.with(bit(place));
        }
    }
    mask
}
