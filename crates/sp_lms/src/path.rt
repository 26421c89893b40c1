// The way from a leaf to the root: along the nodes that a key keeps, or by the path of a signature.
ghost use Rattle.std.specs.Prelude.{◌≡◌, ◌^◌, ◌<◌, length};
ghost use Rattle.sp_lms.specs.Trees.{ancestor, sibling};

use crate::hashes::above;

/// The other node that stands below the same one.
pub(crate) fn sibling(r: u32) -> u32
    requires { r < 2 ^ 31 }
    ensures { result ≡ sibling r }
{
    if r % 2 == 0 { r + 1 } else { r - 1 }
}

/// The node that stands as many levels above node r as there are siblings, one on each level.
pub(crate) fn ancestor(id: &[u8; 16], siblings: &[[u8; 32]], r: u32, node: &[u8; 32]) -> [u8; 32]
    ensures { result ≡ ancestor id.now siblings.now r node.now (length siblings.now) }
{
    let mut number = r;
    let mut value = *node;
    'levels: for level in 0..siblings.len() {
        value = above(id, number, &value, &siblings[level]);
        number /= 2;
    }
    value
}
