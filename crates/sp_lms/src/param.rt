// The parameter sets: how high a tree is, and what follows from that.
ghost use Rattle.std.specs.Prelude.{◌≡◌, ◌≢◌, ◌≤◌, ◌^◌, MatchOption};
ghost use Rattle.sp_lms.specs.Parameters.{height, typecode, leaf_count, signature_len};

use sp_ots::OtsParam;

/// A parameter set of LMS with SHA-256 (RFC 8554, section 5.1), named by h, the height of the tree.
///
/// A tree of height 5, 10 or 15 has 32, 1,024 or 32,768 leaves.
#[derive(Clone, Copy, Debug, PartialEq, Eq)]
pub enum LmsParam {
    H5,
    H10,
    H15,
}

/// The most levels that a tree has above its leaves.
pub(crate) const MOST_LEVELS: usize = 15;

/// The bytes of a signature (RFC 8554, section 5.4): 2,348 at height 5 and 2,508 at height 10, for w = 4.
pub fn sig_len(lms: LmsParam, ots: OtsParam) -> usize
    ensures { result ≡ signature_len lms ots }
{
    8 + sp_ots::sig_len(ots) + 32 * lms.height()
}

impl LmsParam {
    /// The number that stands for the parameter set: 5 to 7 (RFC 8554, section 5.1, table 2).
    pub fn typecode(self) -> u32
        ensures { result ≡ typecode self }
    {
        match self {
            LmsParam::H5 => 5,
            LmsParam::H10 => 6,
            LmsParam::H15 => 7,
        }
    }

    /// The parameter set that a number stands for. None exactly where it stands for none.
    pub fn from_typecode(code: u32) -> Option<Self>
        ensures { MatchOption result ((lms : LmsParam) → typecode lms ≢ code) (λ lms. typecode lms ≡ code) }
    {
        match code {
            5 => Some(LmsParam::H5),
            6 => Some(LmsParam::H10),
            7 => Some(LmsParam::H15),
            _ => None,
        }
    }

    /// The levels of the tree above its leaves.
    pub fn height(self) -> usize
        ensures value { result ≡ height self }
        ensures most { result ≤ 15 }
    {
        match self {
            LmsParam::H5 => 5,
            LmsParam::H10 => 10,
            LmsParam::H15 => 15,
        }
    }

    /// How many messages a key of this height signs, 2^h.
    pub fn leaf_count(self) -> u32
        ensures value { result ≡ leaf_count self }
        ensures most { result ≤ 2 ^ 15 }
    {
        match self {
            LmsParam::H5 => 1 << 5,
            LmsParam::H10 => 1 << 10,
            LmsParam::H15 => 1 << 15,
        }
    }
}
