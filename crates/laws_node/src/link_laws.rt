// What holds of a link over its life, whatever arrives.
ghost use Rattle.laws_node.specs.LinkLaws.{BootIsKnown, FreshFramesRise, GreatestIsKept};

/// A law: over all that arrives at a new link, the pairs of boot and counter of its fresh frames rise strictly. So none is fresh twice.
pub fn no_frame_is_fresh_twice()
    ensures { FreshFramesRise }
{}

/// A law: a link keeps the greatest of (0, 0), the pairs of its fresh frames, and (b, 0) for each boot b that an answer carried. It knows
/// the boot of the pair that it keeps.
pub fn a_link_keeps_the_greatest_pair()
    ensures greatest { GreatestIsKept }
    ensures known { BootIsKnown }
{}
