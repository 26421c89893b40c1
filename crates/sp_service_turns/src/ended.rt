// Why a daemon ends early.
use sp_keystate::KeyRefused;

/// What stopped a turn.
#[derive(Clone, Copy, Debug, PartialEq, Eq)]
pub enum Ended {
    /// The recording took a line no more.
    Sink,
    /// No memory was left.
    Memory,
    /// No more indexes could be reserved.
    Keys(KeyRefused),
}

/// What a receive gave. A datagram lies at the front of the buffer.
#[derive(Clone, Copy, Debug)]
pub enum Heard {
    Nothing,
    Lost,
    Came { port: u16, count: usize },
}
