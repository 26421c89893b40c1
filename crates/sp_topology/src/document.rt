// The fixed numbers of a document.

/// The name of a document, "MTMW".
pub const NAME: u32 = 0x4d54_4d57;

/// The bytes of a key of two levels (RFC 8554, section 6.1).
pub const KEY_BYTES: usize = 60;

/// The bytes before the nodes.
pub const FRONT_BYTES: usize = 11;

/// The bytes of a node.
pub const NODE_BYTES: usize = 1 + KEY_BYTES;

/// The bytes of an edge.
pub const EDGE_BYTES: usize = 6;
