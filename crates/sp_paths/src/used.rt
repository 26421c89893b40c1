// Which arcs paths go along.
ghost use Rattle.std.specs.Prelude.{◌≡◌};
ghost use Rattle.std.specs.List.{list_any};
ghost use Rattle.sp_paths.specs.Tests.{goes, passes};

use sp_base::{Listed, NodeId};

/// Whether the path goes from the one node to the other at once.
fn goes(path: &[NodeId], u: NodeId, v: NodeId) -> bool
    ensures { result ≡ goes path.now u v }
{
    let mut rest = path;
    'steps: while rest.len() >= 2 {
        if rest[0].0 == u.0 && rest[1].0 == v.0 {
            return true;
        }
        rest = &rest[1..];
    }
    false
}

/// Whether the node stands between the path's first and its last.
fn passes(path: &[NodeId], node: NodeId) -> bool
    ensures { result ≡ passes path.now node }
{
    if path.is_empty() {
        return false;
    }
    let mut rest = &path[1..];
    'steps: while rest.len() >= 2 {
        if rest[0].0 == node.0 {
            return true;
        }
        rest = &rest[1..];
    }
    false
}

/// Whether one of the paths goes from the one node to the other at once.
pub fn any_goes(paths: &[Listed<NodeId>], u: NodeId, v: NodeId) -> bool
    ensures { result ≡ list_any (λ path. goes path u v) paths.now }
{
    for path in paths {
        if goes(path.as_slice(), u, v) {
            return true;
        }
    }
    false
}

/// Whether one of the paths goes through the node.
pub fn any_passes(paths: &[Listed<NodeId>], node: NodeId) -> bool
    ensures { result ≡ list_any (λ path. passes path node) paths.now }
{
    for path in paths {
        if passes(path.as_slice(), node) {
            return true;
        }
    }
    false
}
