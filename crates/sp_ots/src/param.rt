// The parameter sets: how many bits a digit has, and what follows from that.
ghost use Rattle.std.specs.Prelude.{◌≡◌, ◌≢◌, MatchOption};
ghost use Rattle.sp_ots.specs.Parameters.{width, chain_count, checksum_shift, typecode, last_step, signature_len};

/// A parameter set of LM-OTS with SHA-256 (RFC 8554, section 4.1), named by w, the bits of a digit.
///
/// A greater w gives shorter signatures and takes more hashing: 265, 133, 67 and 34 chains of 2^w elements.
#[derive(Clone, Copy, Debug, PartialEq, Eq)]
pub enum OtsParam {
    W1,
    W2,
    W4,
    W8,
}

/// The most chains that a parameter set has.
pub(crate) const MOST_CHAINS: usize = 265;

/// The bytes of a signature: 8,516, 4,292, 2,180 and 1,124.
pub fn sig_len(param: OtsParam) -> usize
    ensures { result ≡ signature_len param }
{
    4 + 32 * (param.chain_count() + 1)
}

impl OtsParam {
    /// The number that stands for the parameter set: 1 to 4 (RFC 8554, section 4.1, table 1).
    pub fn typecode(self) -> u32
        ensures { result ≡ typecode self }
    {
        match self {
            OtsParam::W1 => 1,
            OtsParam::W2 => 2,
            OtsParam::W4 => 3,
            OtsParam::W8 => 4,
        }
    }

    /// The parameter set that a number stands for. None exactly where it stands for none.
    pub fn from_typecode(code: u32) -> Option<Self>
        ensures { MatchOption result ((param : OtsParam) → typecode param ≢ code) (λ param. typecode param ≡ code) }
    {
        match code {
            1 => Some(OtsParam::W1),
            2 => Some(OtsParam::W2),
            3 => Some(OtsParam::W4),
            4 => Some(OtsParam::W8),
            _ => None,
        }
    }

    /// The bits of a digit.
    pub(crate) fn width(self) -> usize
        ensures { result ≡ width self }
    {
        match self {
            OtsParam::W1 => 1,
            OtsParam::W2 => 2,
            OtsParam::W4 => 4,
            OtsParam::W8 => 8,
        }
    }

    pub(crate) fn chain_count(self) -> usize
        ensures { result ≡ chain_count self }
    {
        match self {
            OtsParam::W1 => 265,
            OtsParam::W2 => 133,
            OtsParam::W4 => 67,
            OtsParam::W8 => 34,
        }
    }

    /// How far the checksum is moved to the left, so that its digits stand first in 16 bits.
    pub(crate) fn checksum_shift(self) -> u32
        ensures { result ≡ checksum_shift self }
    {
        match self {
            OtsParam::W1 => 7,
            OtsParam::W2 => 6,
            OtsParam::W4 => 4,
            OtsParam::W8 => 0,
        }
    }

    /// The greatest digit, and the step at which every chain ends.
    pub(crate) fn last_step(self) -> u8
        ensures { result ≡ last_step self }
    {
        match self {
            OtsParam::W1 => 1,
            OtsParam::W2 => 3,
            OtsParam::W4 => 15,
            OtsParam::W8 => 255,
        }
    }
}
