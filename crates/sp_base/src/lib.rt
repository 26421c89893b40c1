//! The small types that every part of the overlay shares: ids, byte strings, lists, bounds, a reader of bytes and a cyclic cursor.
#![tactic(auto)]

mod cursor;
mod flow;
mod format;
mod four;
mod id;
mod limits;
mod listed;
mod memory;
mod numbers;
mod reader;
mod room;

pub use cursor::Cursor;
pub use format::{FORMAT_1, FORMAT_2, by_format, max_edges, max_nodes, max_rels};
pub use four::Four;
pub use id::{EdgeId, Flow, Limits, NodeId};
pub use limits::{
    MAX_BUFFER, MAX_EDGES, MAX_EDGES_2, MAX_EVENTS, MAX_INPUT_BYTES, MAX_LINE_BYTES, MAX_MESSAGES,
    MAX_NODES, MAX_NODES_2, MAX_PAYLOAD_BYTES, MAX_PRIORITY, MAX_RELS_2, MAX_SEQ, MAX_STORE,
    MAX_WEIGHT,
};
pub use listed::{Bytes, Listed};
pub use memory::Memory;
pub use numbers::{push_bytes, push_u8, push_u16, push_u32, push_u64, push_u128};
pub use reader::{Reader, Short};
pub use room::{push, push_in_room};
