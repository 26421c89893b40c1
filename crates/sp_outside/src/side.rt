// The two sides of a daemon.

/// Other daemons are on the overlay side, and clients on the other.
#[derive(Clone, Copy, Debug, PartialEq, Eq)]
pub enum Side {
    Overlay,
    Client,
}
