// A recording in pieces: how a daemon started, what happened in its turns, and how many turns it made.
use sp_base::{Bytes, NodeId};

/// The greatest number of a start. Starts count from 1.
pub const MAX_BOOT: u64 = 0x7fff_ffff_ffff_ffff;

/// The most turns of one start.
pub const MAX_TURNS: u32 = 10_000_000;

/// A SHA-256 digest, as of FIPS 180-4.
#[derive(Clone, Copy, Debug, PartialEq, Eq)]
pub struct Digest(pub [u8; 32]);

/// How a daemon started: the number of this start, the first index that it may sign with, and the index that it may not reach.
#[derive(Clone, Copy, Debug, PartialEq, Eq)]
pub struct Opening {
    pub boot: u64,
    pub index: u64,
    pub bound: u64,
}

/// What happened, and the digest of what the node answered.
#[derive(Debug, Drop)]
pub enum Line {
    /// Indexes were reserved below this bound.
    Reserve {
        upto: u64,
    },
    /// The clock was read, in milliseconds since 1970.
    Tick {
        now: u64,
        digest: Digest,
    },
    /// A datagram came from a neighbour.
    Overlay {
        node: NodeId,
        bytes: Bytes,
        digest: Digest,
    },
    /// A datagram came from a port that is no neighbour's.
    Stray {
        port: u16,
    },
    /// A request came from a client.
    Client {
        port: u16,
        bytes: Bytes,
        digest: Digest,
    },
    /// A frame was made for a neighbour.
    Poll {
        node: NodeId,
        digest: Digest,
    },
}

/// A line whose bytes lie elsewhere.
#[derive(Clone, Copy, Debug)]
pub enum LineRef<'a> {
    Reserve {
        upto: u64,
    },
    Tick {
        now: u64,
        digest: Digest,
    },
    Overlay {
        node: NodeId,
        bytes: &'a [u8],
        digest: Digest,
    },
    Stray {
        port: u16,
    },
    Client {
        port: u16,
        bytes: &'a [u8],
        digest: Digest,
    },
    Poll {
        node: NodeId,
        digest: Digest,
    },
}

/// How a daemon ended: the turns that it made, and the datagrams that were lost in them.
#[derive(Clone, Copy, Debug, PartialEq, Eq)]
pub struct Closing {
    pub turns: u32,
    pub lost: u32,
}
