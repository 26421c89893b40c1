// The two formats of the overlay, by their numbers, and how much each may have.
ghost use Rattle.std.specs.Prelude.{◌≡◌};
ghost use Rattle.sp_base.specs.Formats.{by_format, max_edges, max_nodes, max_rels};

use crate::{MAX_EDGES, MAX_EDGES_2, MAX_MESSAGES, MAX_NODES, MAX_NODES_2, MAX_RELS_2};

/// The number of format 1. Any other number stands for format 2.
pub const FORMAT_1: u8 = 1;

/// The number of format 2.
pub const FORMAT_2: u8 = 2;

/// The first in format 1, and else the second.
pub fn by_format<T: Drop>(format: u8, one: T, two: T) -> T
    ensures { result ≡ by_format format one two }
{
    if format == FORMAT_1 { one } else { two }
}

/// The greatest number of nodes in a format, which is the greatest id of a node too.
pub fn max_nodes(format: u8) -> u8
    ensures { result ≡ max_nodes format }
{
    by_format(format, MAX_NODES, MAX_NODES_2)
}

/// The greatest number of edges in a format.
pub fn max_edges(format: u8) -> u16
    ensures { result ≡ max_edges format }
{
    by_format(format, MAX_EDGES, MAX_EDGES_2)
}

/// The greatest number of reliable messages in a frame of a format.
pub fn max_rels(format: u8) -> usize
    ensures { result ≡ max_rels format }
{
    by_format(format, MAX_MESSAGES, MAX_RELS_2)
}
