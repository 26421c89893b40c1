// The edges over which a message may go.
ghost use Rattle.std.specs.Prelude.{◌≡◌, ◌<◌, ◌^◌};
ghost use Rattle.std.specs.Int.RustNames.{bit_or};
ghost use Rattle.sp_msg.specs.Masks.{bits, of_halves};
ghost use Rattle.sp_msg.specs.Views.{names_edge};

use sp_base::EdgeId;

/// A set of edges: edge e is bit e, counted from the least of `low` on, and from the least of `high` on from edge 128 on.
#[derive(Clone, Copy, Debug, PartialEq, Eq)]
pub struct Mask {
    pub low: u128,
    pub high: u128,
}

impl Mask {
    /// The set of no edge.
    pub fn none() -> Mask
        ensures { bits result ≡ 0 }
    {
        Mask { low: 0, high: 0 }
    }

    /// The set of one edge.
    pub fn of(edge: EdgeId) -> Mask
        requires { edge.0 < 256 }
        ensures { bits result ≡ 2 ^ edge.0 }
    {
        if edge.0 < 128 {
            Mask {
                low: 1 << edge.0,
                high: 0,
            }
        } else {
            Mask {
                low: 0,
                high: 1 << (edge.0 - 128),
            }
        }
    }

    /// The edges of both sets.
    pub fn with(self, other: Mask) -> Mask
        ensures { bits result ≡ bit_or (bits self) (bits other) }
    {
        joined(self.high, self.low, other.high, other.low)
    }
}

/// The edges of two sets, each by its halves.
fn joined(high: u128, low: u128, other_high: u128, other_low: u128) -> Mask
    ensures { bits result ≡ bit_or (of_halves high low) (of_halves other_high other_low) }
{
    Mask {
        low: low | other_low,
        high: high | other_high,
    }
}

/// Whether an edge is in the set. No edge from 256 on is in one.
pub fn mask_has(mask: &Mask, edge: EdgeId) -> bool
    ensures { result ≡ names_edge (bits mask.now) edge.0 }
{
    has_place(mask.high, mask.low, edge.0)
}

/// Whether the number of these halves has the bit of this place.
fn has_place(high: u128, low: u128, place: u16) -> bool
    ensures { result ≡ names_edge (of_halves high low) place }
{
    if place < 128 {
        has_bit(low, place)
    } else {
        has_bit(high, place - 128)
    }
}

fn has_bit(bits: u128, place: u16) -> bool
    ensures { result ≡ names_edge bits place }
{
    u32::from(place) < u128::BITS && (bits >> place) & 1 == 1
}
