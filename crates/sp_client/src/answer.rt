// What a request is answered.
use sp_base::{Bytes, NodeId};

/// The answer to a request, without its number.
#[derive(Debug, Drop)]
pub enum Answer {
    /// The datagram is no request. A fault of the client.
    BadRequest,
    /// The port has a session.
    Opened,
    /// As many ports have a session as may. Normal where there are many clients.
    SessionsFull,
    /// The port has no session. Normal after `close`, else a fault of the client.
    NoSession,
    /// The request is neither the last of the session nor the next, or no first one. This was the last. A fault of the client.
    BadNumber {
        last: u64,
    },
    /// The session takes messages.
    Listening,
    /// The session of this port takes messages. Normal.
    Busy {
        port: u16,
    },
    /// Nobody takes messages yet. A fault of the client.
    NotListening,
    /// The message or the weight was taken under this number.
    Accepted {
        seq: u64,
    },
    /// The node named is no right end. A fault of the client.
    BadEnd,
    /// The flow's buffer is full between these two numbers. Normal where messages wait for their acknowledgement.
    Full {
        base: u64,
        have: u64,
    },
    /// The expiry is before the node's time, which is this. A fault of the client.
    Expired {
        now: u64,
    },
    /// Messages on this many paths wait, which isn't the number that was asked for. Normal.
    BusyPaths {
        paths: u8,
    },
    /// There are only so many paths. Normal.
    NoPaths {
        found: u8,
    },
    /// The weight is below this one, the administrator's minimum. A fault of the client.
    Low {
        min: u32,
    },
    /// The node has signed so much as its key can. The key has to be replaced.
    Spent {
        index: u64,
    },
    /// The node has signed so much as was reserved.
    NotReserved {
        bound: u64,
    },
    /// The oldest reliable message.
    Payload(Bytes),
    /// The oldest priority message: where it comes from, its number, and its payload.
    Message {
        src: NodeId,
        seq: u64,
        payload: Bytes,
    },
    /// No message waits.
    Empty,
    /// The session is over.
    Closed,
}
