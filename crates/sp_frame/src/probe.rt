// The probe of a frame.

/// A probe of the link to a neighbour, and the answer to the last of its probes. Number 0 and echo 0 stand for none.
#[derive(Clone, Copy, Debug, PartialEq, Eq)]
pub struct Probe {
    pub number: u64,
    pub nonce: [u8; 8],
    pub echo: u64,
    pub proof: [u8; 32],
}
