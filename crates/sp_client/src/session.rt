// The session of one port, with the memory of its kept reply.
ghost use Rattle.std.specs.Prelude.{◌≡◌, ◌≤◌, length};
ghost use Rattle.sp_client.specs.declared.limits.TheConstants.{MAX_REPLY_BYTES};
ghost use Rattle.sp_client.specs.Tables.{has_port, session};

use crate::spelling::Reply;
use std::marker::Model;

/// A session: its port, the number of its last request, and the reply to that.
#[derive(Debug, Drop)]
pub struct Session {
    port: u16,
    last: u64,
    kept: Reply,
}

impl Model for Session {
    ghost use Rattle.sp_client.specs.Tables.{Session};

    ghost Value = { Session };

    ghost view = { λ s. record { port = s.port; last = s.last; kept = s.kept.items } };
}

impl Session {
    pub fn new(port: u16, last: u64, kept: Reply) -> Session
        ensures { result ≡ session port last kept.items }
    {
        Session { port, last, kept }
    }

    /// Whether it is the session of this port.
    pub fn is_of(&self, port: u16) -> bool
        ensures { result ≡ has_port port self.now }
    {
        self.port == port
    }

    pub fn last(&self) -> u64
        ensures { result ≡ self.now.last }
    {
        self.last
    }

    /// The reply to its last request.
    pub fn kept(&self) -> &[u8]
        ensures kept { result.now ≡ self.now.kept }
        ensures short { length result.now ≤ MAX_REPLY_BYTES }
    {
        self.kept.as_slice()
    }
}
