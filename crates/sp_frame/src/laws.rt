// What holds of the bytes of all frames.
ghost use Rattle.sp_frame.specs.Laws.{FrameIsItsParts, HeadIsRead, ReadIsSpelled, SpelledIsRead, TailIsRefused};

/// A law: sections are read back from their bytes, and refused where a byte follows. What is read is spelled by the bytes that were read,
/// all of them, so a byte more before the tag is never read.
pub fn sections_have_one_spelling()
    ensures spelled_is_read { SpelledIsRead }
    ensures tail_is_refused { TailIsRefused }
    ensures read_is_spelled { ReadIsSpelled }
{}

/// A law: a head is read back from its bytes, and a frame is the bytes of its head, then its sections, then its tag.
pub fn a_frame_is_its_head_its_sections_and_its_tag()
    ensures head_is_read { HeadIsRead }
    ensures frame_is_its_parts { FrameIsItsParts }
{}
