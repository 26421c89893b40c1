// The arts of this format as one value: what the rules of a node mean by a frame, a tag and a signature. And the law that they fit.
ghost use Rattle.sp_node_format.specs.FormatLaws.{FormatFits, GoodIsInRange};
ghost use Rattle.sp_node_format.specs.PolledFrames.{PolledIsReadBack, SignaturesAreShort};

/// A law: the arts of this format fit each node that signs with the key that its topology has for it. So all laws of a node's steps
/// hold over this format. Good are those messages whose fields are in their ranges.
pub fn the_arts_of_the_format_fit()
    ensures fit { FormatFits }
    ensures good { GoodIsInRange }
{}

/// A law: the frame that a node makes for a neighbour opens, with the head and the sections that were meant and the right tag. For that its
/// signatures have at most 5,076 bytes, as all of this format have.
pub fn a_polled_frame_is_read_back()
    ensures short { SignaturesAreShort }
    ensures back { PolledIsReadBack }
{}
