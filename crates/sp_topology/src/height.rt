// The two heights of a node's signature trees, with their numbers and typecodes.
ghost use Rattle.std.specs.Prelude.{◌≡◌};
ghost use Rattle.sp_topology.specs.Heights.{height_at, height_number, typecode_of};

use crate::LmsHeight;

impl LmsHeight {
    /// The height as a number: 5 or 10.
    pub fn number(self) -> u8
        ensures { result ≡ height_number self }
    {
        match self {
            LmsHeight::Five => 5,
            LmsHeight::Ten => 10,
        }
    }

    /// The height of a number. None exactly where it is neither 5 nor 10.
    pub fn from_number(number: u8) -> Option<LmsHeight>
        ensures { result ≡ height_at number }
    {
        match number {
            5 => Some(LmsHeight::Five),
            10 => Some(LmsHeight::Ten),
            _ => None,
        }
    }

    /// The typecode of LMS trees of this height with SHA-256 (RFC 8554, section 5.1).
    pub fn typecode(self) -> u32
        ensures { result ≡ typecode_of self }
    {
        match self {
            LmsHeight::Five => 5,
            LmsHeight::Ten => 6,
        }
    }
}
