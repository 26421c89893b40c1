// What a client asks for.
use sp_base::{Bytes, NodeId};

/// A request: the client's number of it, from 1 on, and what is to be done.
#[derive(Debug, Drop)]
pub struct Request {
    pub number: u64,
    pub command: Command,
}

/// What a request is to do.
#[derive(Debug, Drop)]
pub enum Command {
    /// Begin a session.
    Open,
    /// Be the one who takes messages.
    Listen,
    /// Send a reliable message of at most 1,024 bytes.
    Send {
        to: NodeId,
        payload: Bytes,
    },
    /// Send a priority message of at most 1,024 bytes: priority 1 to 10, which counts up to its expiry, in milliseconds of the
    /// node's clock, on this many paths that share no node, or on all edges for 0.
    SendPrio {
        to: NodeId,
        prio: u8,
        expiry: u64,
        paths: u8,
        payload: Bytes,
    },
    /// Take the oldest reliable message from this node.
    Take {
        from: NodeId,
    },
    /// Take the oldest priority message.
    TakePrio,
    /// Send a reliable message of at most 1,024 bytes on this many paths that share no node: 1 to 8.
    SendKrel {
        to: NodeId,
        paths: u8,
        payload: Bytes,
    },
    /// Take the oldest reliable message on paths from this node.
    TakeKrel {
        from: NodeId,
    },
    /// Set the weight of the link to this neighbour.
    Weight {
        peer: NodeId,
        weight: u32,
    },
    /// End the session.
    Close,
}
