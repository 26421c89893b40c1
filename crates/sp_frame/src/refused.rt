// Why a datagram is no frame, and why its sections aren't read.
use sp_base::Short;
use thiserror::Error;

/// Why a datagram is no frame.
#[derive(Clone, Copy, Debug, PartialEq, Eq, Error)]
pub enum FrameRefused {
    /// It is longer than any datagram of UDP over IPv4.
    #[error("a datagram is too long")]
    TooLong,
    /// It is shorter than a head and a tag.
    #[error("a datagram is too short: {0}")]
    Short(Short),
    /// It doesn't begin with the name of frames.
    #[error("a datagram is no frame")]
    Magic,
    /// It is a frame of another version.
    #[error("a frame is of another version")]
    Version,
}

/// Why sections aren't read: the first thing from the left that is wrong.
#[derive(Clone, Copy, Debug, PartialEq, Eq, Error)]
pub enum SectionRefused {
    /// The bytes before the tag end inside a part.
    #[error("a section is cut off")]
    Cut,
    /// A count or a flag is above its greatest value.
    #[error("a section counts more than it may have")]
    Count,
    /// Bytes are no message of the section's kind, or a signature isn't of the right length.
    #[error("an object of a section is wrong")]
    Object,
    /// Bytes are left before the tag.
    #[error("bytes follow the sections")]
    Tail,
}

impl From<Short> for SectionRefused {
    ghost use Rattle.std.specs.Prelude.{◌≡◌};
    ghost use Rattle.sp_frame.specs.declared.refused.SectionRefused.TheVariants.{Cut as cut};

    ghost from_gives = { λ _ refused. refused ≡ cut };

    fn from(_: Short) -> Self {
        SectionRefused::Cut
    }
}
