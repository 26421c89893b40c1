// The bounds of a search.
use sp_base::MAX_NODES_2;

/// The greatest number of paths that may be asked for.
pub const MAX_PATHS: u8 = 8;

/// The greatest number of a part, and one more: the parts of node v are 2 v and 2 v + 1.
pub const PARTS: usize = 2 * (MAX_NODES_2 as usize + 1);
