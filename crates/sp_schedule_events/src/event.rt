// What happens in a run, one event after the other.
use sp_base::{Bytes, Listed, NodeId};
use sp_schedule_crafts::CraftedObject;

/// One event of a schedule: a step of one node.
#[derive(Debug, Drop)]
pub enum Event {
    /// A client of `s` sends a payload of at most 1,024 bytes to `d` on their reliable flow.
    Rel {
        s: NodeId,
        d: NodeId,
        payload: Bytes,
    },
    /// A client of `s` sends a priority message to `d`, over so many disjoint paths, or over all edges where these are 0.
    Prio {
        s: NodeId,
        d: NodeId,
        prio: u8,
        expiry: u64,
        paths: u8,
        payload: Bytes,
    },
    /// A client of `d` takes the oldest message of the flow from `s` that was delivered and not taken yet.
    Take {
        d: NodeId,
        s: NodeId,
    },
    /// A client of `d` takes the oldest priority message of its inbox.
    TakePrio {
        d: NodeId,
    },
    /// The clock of `u` says this moment.
    Tick {
        u: NodeId,
        now: u64,
    },
    /// `u` sets the weight of its link to `v`.
    Weight {
        u: NodeId,
        v: NodeId,
        weight: u32,
    },
    /// `u` makes its next frame for its neighbour `v`. The frames of a direction are numbered 1, 2, 3.
    Poll {
        u: NodeId,
        v: NodeId,
    },
    /// The frame of this number that `u` made for `v` arrives at `v`.
    Pass {
        u: NodeId,
        v: NodeId,
        number: u32,
    },
    /// It arrives with one bit changed, 0 the least, of the byte that stands so far from its end, 1 the last.
    Flip {
        u: NodeId,
        v: NodeId,
        number: u32,
        back: u8,
        bit: u8,
    },
    /// At most 65,507 bytes arrive at `v` from the address of `u`.
    Inject {
        u: NodeId,
        v: NodeId,
        bytes: Bytes,
    },
    /// `c` sends `v` a frame with one message that is signed by the key of a node.
    Craft {
        c: NodeId,
        v: NodeId,
        key: NodeId,
        object: CraftedObject,
    },
    /// `c` sends `v` a frame with a report and no message.
    CraftStatus {
        c: NodeId,
        v: NodeId,
        s: NodeId,
        d: NodeId,
        base: u64,
        have: u64,
    },
    /// `u` starts: with its next boot, and with all else as before its first event.
    Start {
        u: NodeId,
    },
    /// `u` stops. All that it held is lost, but for the numbers of its key file.
    Stop {
        u: NodeId,
    },
    /// The administrator hands `u` a document. With weights, one for each edge and 0 for one that is withdrawn, it is the next version, which is signed now;
    /// without them it is the last one.
    Publish {
        u: NodeId,
        weights: Option<Listed<u32>>,
    },
    /// `c` sends `v` a document of this version, signed by the key of a node, or of the administrator where this is 0. Without weights it has the last that
    /// were published.
    CraftDocument {
        c: NodeId,
        v: NodeId,
        key: u8,
        version: u32,
        weights: Option<Listed<u32>>,
    },
    /// A client of `s` sends a payload of at most 1,024 bytes to `d` on their flow on paths, over so many disjoint ones: 1 to 8.
    Krel {
        s: NodeId,
        d: NodeId,
        paths: u8,
        payload: Bytes,
    },
    /// A client of `d` takes the oldest message of the flow on paths from `s` that was delivered and not taken yet.
    KTake {
        d: NodeId,
        s: NodeId,
    },
}
