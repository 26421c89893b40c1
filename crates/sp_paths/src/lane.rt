// An arc of the split graph as the search keeps it: between two parts by their numbers, with a mark where a path goes along it.
// The number of a part is twice its node for the in-part, and one more for the out-part.
ghost use Rattle.std.specs.Prelude.{◌≡◌};
ghost use Rattle.sp_paths.specs.Lanes.{flipped, head, tail};

#[derive(Clone, Copy, Debug, PartialEq, Eq)]
pub struct Lane {
    pub from: u8,
    pub to: u8,
    pub cost: u32,
    pub used: bool,
}

/// Where the residual arc begins.
pub fn tail(lane: Lane) -> u8
    ensures { result ≡ tail lane }
{
    if lane.used { lane.to } else { lane.from }
}

/// Where the residual arc ends.
pub fn head(lane: Lane) -> u8
    ensures { result ≡ head lane }
{
    if lane.used { lane.from } else { lane.to }
}

/// The lane with its mark turned round.
pub fn flipped(lane: Lane) -> Lane
    ensures { result ≡ flipped lane }
{
    Lane {
        from: lane.from,
        to: lane.to,
        cost: lane.cost,
        used: !lane.used,
    }
}
