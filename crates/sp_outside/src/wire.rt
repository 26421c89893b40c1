// Datagrams of one daemon: those of other daemons on its overlay side, those of its clients on the other.
ghost use Rattle.std.specs.Prelude.{◌≡◌, ◌≤◌, ◌∷◌, [], ℕ, List, Option, length, IfOk, IfSome};
ghost use Rattle.sp_outside.specs.declared.wire.TheConstants.{DATAGRAM_BYTES};
ghost use Rattle.sp_outside.specs.Calls.{Call, Opened, Received, Sent, Tells, got_of, is_done};
ghost use Rattle.sp_outside.specs.Causes.{HasCause};

use crate::{Failed, Side};

/// The longest datagram, in bytes: what UDP over IPv4 carries.
pub const DATAGRAM_BYTES: usize = 65_507;

/// Where datagrams come from and go to.
pub trait Wire {
    /// The calls, in order, where the object tells them.
    ghost told: { Self → Option (List Call) };

    /// How many calls of `open` failed.
    ghost failed_opens: { Self → ℕ };

    /// How many receives and sends failed.
    ghost faults: { Self → ℕ };

    /// Opens both sides on these ports. Port 0 opens nothing on that side.
    fn open(&mut self, overlay: u16, client: u16) -> Result<(), Failed>
        ensures cause { HasCause (failed_opens self.old) (failed_opens self.new) result }
        ensures others { faults self.new ≡ faults self.old }
        ensures told { Tells (told self.old) (told self.new) (Opened overlay client (is_done result) ∷ []) };

    /// The next datagram with its sender's port, if there is one now. It lies at the front of the buffer.
    fn receive(&mut self, side: Side, buf: &mut [u8]) -> Result<Option<(u16, usize)>, Failed>
        requires { DATAGRAM_BYTES ≤ length buf.old }
        ensures bound { IfOk result (λ got. IfSome got (λ datagram. datagram.1 ≤ DATAGRAM_BYTES)) }
        ensures cause { HasCause (faults self.old) (faults self.new) result }
        ensures others { failed_opens self.new ≡ failed_opens self.old }
        ensures told { Tells (told self.old) (told self.new) (Received side (got_of result buf.new) ∷ []) };

    /// Sends a datagram to a port.
    fn send(&mut self, side: Side, port: u16, bytes: &[u8]) -> Result<(), Failed>
        requires { length bytes.now ≤ DATAGRAM_BYTES }
        ensures cause { HasCause (faults self.old) (faults self.new) result }
        ensures others { failed_opens self.new ≡ failed_opens self.old }
        ensures told { Tells (told self.old) (told self.new) (Sent side port bytes.now (is_done result) ∷ []) };
}
