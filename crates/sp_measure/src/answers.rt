// What a node answers to the probe of a frame, and to the echo in it.

/// The answer to a probe: the first that fits.
#[derive(Clone, Copy, Debug, PartialEq, Eq)]
pub enum ProbeAnswer {
    /// There is none: its number is 0.
    Nothing,
    /// It is the one after the last that was taken, and is taken.
    New,
    /// It was taken before. Normal where a probe is carried again.
    Old,
    /// One before it is missing. A fault of the neighbour, or an attack.
    Gap,
}

/// The answer to an echo: the first that fits.
#[derive(Clone, Copy, Debug, PartialEq, Eq)]
pub enum EchoAnswer {
    /// There is none: its number is 0.
    Nothing,
    /// It closes the open probe, which has this number and cost so much (`Opening::cost`).
    New { number: u64, cost: u32 },
    /// Its probe is closed. Normal where an echo is carried again.
    Old,
    /// Its probe wasn't sent, or its proof isn't that of all probes up to it. An attack.
    Bad,
}
