// What a store of priority messages holds, and what it answers when one more is put in.
use sp_msg::Kept;

/// How many values the id of a node can have: it is one byte.
pub const IDS: usize = 256;

/// A message in a store, under the number of its arrival, counted from 1. Stores hold priority messages.
#[derive(Debug, Drop)]
pub struct Entry {
    pub id: u64,
    pub kept: Kept,
}

/// What became of a message that was put into a store.
#[derive(Debug, Drop)]
pub enum Put {
    /// It has this id, and nothing had to go.
    Stored { id: u64 },
    /// It got this id, and the store was full: this entry went, which may be the new one.
    StoredAfter { id: u64, evicted: Entry },
}
