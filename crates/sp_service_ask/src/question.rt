// What is asked, and how.

/// A request to a daemon of this machine.
#[derive(Clone, Copy, Debug)]
pub struct Question<'a> {
    /// The port of the daemon that its clients use.
    pub port: u16,
    /// The port to ask from. A port is a session there, so the same one goes on with it.
    pub local: u16,
    /// How many receives are made, at most.
    pub turns: u32,
    /// The request, as it is sent.
    pub request: &'a [u8],
}
