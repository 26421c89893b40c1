// What a link says of a frame.
/// What a link says of a frame from its neighbour: the first test that fails, or that it is fresh.
#[derive(Clone, Copy, Debug, PartialEq, Eq)]
pub enum LinkAnswer {
    /// It isn't from the neighbour to this node. An attack.
    NotForMe,
    /// Its tag isn't that of its bytes under the key of the two. An attack, or a fault of the network.
    BadTag,
    /// It echoes another boot than this node's: the neighbour's boot, which is known from now on. Normal after a start.
    Learned { boot: u64 },
    /// It doesn't come after this boot and counter. Normal where the network repeats or reorders.
    Stale { boot: u64, counter: u64 },
    /// No frame of its boot and counter was fresh before, and none will be.
    Fresh,
}
