// What comes to a wire in memory, and what it keeps of its calls.
ghost use Rattle.std.specs.Prelude.{◌≡◌, []};

use crate::Side;

/// A datagram that comes: its sender's port and its bytes.
#[derive(Clone, Copy, Debug)]
pub struct Coming<'a> {
    pub port: u16,
    pub bytes: &'a [u8],
}

/// Which calls fail, of each kind by their numbers, counted from 0.
#[derive(Clone, Copy, Debug)]
pub struct WirePlan<'a> {
    pub opens: &'a [u64],
    pub receives: &'a [u64],
    pub sends: &'a [u64],
}

impl WirePlan<'static> {
    /// No call is planned to fail.
    pub fn none() -> Self
        ensures { (result.opens.now ≡ []) × (result.receives.now ≡ []) × (result.sends.now ≡ []) }
    {
        WirePlan {
            opens: &[],
            receives: &[],
            sends: &[],
        }
    }
}

/// A call that was made, and how it came out.
#[derive(Debug, Drop)]
pub enum Kept {
    Opened {
        overlay: u16,
        client: u16,
        is_done: bool,
    },
    Nothing {
        side: Side,
    },
    Lost {
        side: Side,
    },
    Came {
        side: Side,
        port: u16,
        bytes: Vec<u8>,
    },
    Sent {
        side: Side,
        port: u16,
        bytes: Vec<u8>,
        is_done: bool,
    },
}

/// Which way a datagram went, and whether a send was done.
#[derive(Clone, Copy, Debug)]
pub(crate) enum Way {
    Came,
    Sent { is_done: bool },
}
