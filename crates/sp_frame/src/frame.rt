// A datagram as a frame: its head, its sections and its tag, borrowed from it.
ghost use Rattle.std.specs.Prelude.{◌≡◌, IfOk, slice_index};
ghost use Rattle.sp_base.specs.Refusals.{Gives};
ghost use Rattle.sp_base.specs.declared.format.TheConstants.{FORMAT_1};
ghost use Rattle.sp_frame.specs.Frames.{head_of, opened, opened_in, sections_part, tag_part, tagged_part};
ghost use Rattle.sp_frame.specs.OfFormat.{AreOf};
ghost use Rattle.sp_frame.specs.Sections.{sections_of_in};
ghost use Rattle.sp_frame.specs.Views.{as_contents};

use crate::sections::sections_of;
use crate::{FrameRefused, Head, SectionRefused, Sections};
use byteorder::{BigEndian, ByteOrder};
use sp_base::{FORMAT_1, NodeId, Short};
use std::marker::Model;

/// The first two bytes of each frame, "SI".
pub(crate) const NAME: u16 = 0x5349;

/// The first byte of the control section of a frame with a document.
pub(crate) const DOCUMENT: u8 = 128;

/// The bytes of a head.
pub const HEAD_BYTES: usize = 33;

/// The bytes of a tag.
pub const TAG_BYTES: usize = 32;

/// The bytes of a head and a tag, which each frame has.
pub const MIN_FRAME_BYTES: usize = 65;

/// The longest payload of a datagram of UDP over IPv4 (RFC 768 and RFC 791).
pub const MAX_FRAME_BYTES: usize = 65_507;

/// A datagram of 65 to 65,507 bytes with the name of frames. A contract sees its bytes.
#[derive(Debug, Drop)]
pub struct Frame<'a> {
    bytes: &'a [u8],
}

impl<'a> Model for Frame<'a> {
    ghost use Rattle.std.specs.Prelude.{ℕ, List};
    ghost use Rattle.sp_frame.specs.Frames.{IsFrame};

    ghost Value = { List ℕ };

    ghost view = { λ f. f.bytes.now };

    ghost invariant = { λ f. IsFrame f.bytes.now };
}

impl<'a> Frame<'a> {
    /// The datagram as a frame of format 1: `TooLong`, `Short`, `Magic` or `Version` where it is none, the first of these that is so.
    pub fn open(bytes: &'a [u8]) -> Result<Frame<'a>, FrameRefused>
        ensures opened { Gives (λ frame. frame) result (opened bytes.now) }
        ensures of_format { IfOk result (λ frame. slice_index frame 2 ≡ FORMAT_1) }
    {
        Frame::open_in(bytes, FORMAT_1)
    }

    /// The same of a format.
    pub fn open_in(bytes: &'a [u8], format: u8) -> Result<Frame<'a>, FrameRefused>
        ensures opened { Gives (λ frame. frame) result (opened_in format bytes.now) }
        ensures of_format { IfOk result (λ frame. slice_index frame 2 ≡ format) }
    {
        if bytes.len() > MAX_FRAME_BYTES {
            return Err(FrameRefused::TooLong);
        }
        if bytes.len() < MIN_FRAME_BYTES {
            return Err(FrameRefused::Short(Short {
                need: MIN_FRAME_BYTES,
                left: bytes.len(),
            }));
        }
        if BigEndian::read_u16(bytes) != NAME {
            return Err(FrameRefused::Magic);
        }
        if bytes[2] != format {
            return Err(FrameRefused::Version);
        }
        Ok(Frame { bytes })
    }

    #[tactic(auto, unfolding(crate::specs::Frames::head_of))]
    pub fn head(&self) -> Head
        ensures { result ≡ head_of self.now }
    {
        let bytes = self.bytes;
        Head {
            format: bytes[2],
            from: NodeId(bytes[3]),
            to: NodeId(bytes[4]),
            boot: BigEndian::read_u64(&bytes[5..]),
            echo: BigEndian::read_u64(&bytes[13..]),
            counter: BigEndian::read_u64(&bytes[21..]),
            topology: BigEndian::read_u32(&bytes[29..]),
        }
    }

    /// All bytes before the tag.
    pub fn tagged_part(&self) -> &'a [u8]
        ensures { result.now ≡ tagged_part self.now }
    {
        let bytes = self.bytes;
        &bytes[..bytes.len() - TAG_BYTES]
    }

    pub fn tag(&self) -> &'a [u8]
        ensures { result.now ≡ tag_part self.now }
    {
        let bytes = self.bytes;
        &bytes[bytes.len() - TAG_BYTES..]
    }

    /// The sections, where signatures are of this length, or what is first wrong from the left. They borrow from the datagram.
    pub fn sections(&self, signature_len: usize) -> Result<Sections<'a>, SectionRefused>
        ensures read { Gives as_contents result (sections_of_in (slice_index self.now 2) signature_len (sections_part self.now)) }
        ensures of_format { IfOk result (AreOf (slice_index self.now 2)) }
    {
        let bytes = self.bytes;
        let (signed, _) = bytes.split_at(bytes.len() - TAG_BYTES);
        let (_, sections) = signed.split_at(HEAD_BYTES);
        sections_of(sections, bytes[2], signature_len)
    }
}
