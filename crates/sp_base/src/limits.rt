// The bounds of the overlay's formats, each with its name: a format says so many, and so do the clauses.

/// The greatest number of nodes in format 1, which is the greatest id of a node too.
pub const MAX_NODES: u8 = 16;

/// The greatest number of edges in format 1: those of 16 nodes that are all joined.
pub const MAX_EDGES: u16 = 120;

/// The greatest number of nodes in format 2, which is the greatest id of a node too.
pub const MAX_NODES_2: u8 = 32;

/// The greatest number of edges in format 2.
pub const MAX_EDGES_2: u16 = 256;

/// The greatest weight of an edge.
pub const MAX_WEIGHT: u32 = 1_000_000;

/// The greatest number of a message. Numbers begin at 1.
pub const MAX_SEQ: u64 = 0x7fff_ffff_ffff_ffff;

/// The greatest priority of a message. Priorities begin at 1.
pub const MAX_PRIORITY: u8 = 10;

/// The longest payload of a message, in bytes.
pub const MAX_PAYLOAD_BYTES: usize = 1_024;

/// The greatest bound of a flow's buffer, in messages.
pub const MAX_BUFFER: u16 = 64;

/// The greatest bound of a priority store, in entries.
pub const MAX_STORE: u16 = 256;

/// The greatest number of events of a schedule.
pub const MAX_EVENTS: usize = 16_384;

/// The longest line of a text, in bytes without its newline.
pub const MAX_LINE_BYTES: usize = 131_200;

/// The longest input, in bytes.
pub const MAX_INPUT_BYTES: usize = 67_108_864;

/// The greatest number of priority messages in a frame, of reliable ones in a frame of format 1, and of messages in flight to a neighbour.
pub const MAX_MESSAGES: usize = 4;

/// The greatest number of reliable messages in a frame of format 2.
pub const MAX_RELS_2: usize = 2;
