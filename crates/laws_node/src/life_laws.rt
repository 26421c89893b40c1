// The laws of a node's life, whatever comes to it: which frames were fresh, what a link weighs, which numbers were seen.
ghost use Rattle.laws_node.specs.LifeLaws.{PairsOfLives, WeightsOfLives, WindowsOfLives};

/// A law: from its start on a node keeps of each neighbour the greatest of (0, 0), the pairs of boot and counter of its frames that were
/// fresh, and (b, 0) for each boot b that it learned; and it knows that boot. Polls between them change nothing of it.
pub fn a_node_keeps_the_greatest_pair_of_each_neighbour()
    ensures { PairsOfLives }
{}

/// A law: the effective weight of an edge at a node is the greatest of the minimum and, of each end, the last weight that the effects of
/// its life tell as held.
pub fn an_effective_weight_is_what_a_life_tells()
    ensures { WeightsOfLives }
{}

/// A law: what a node holds as seen of a source is the window of all its numbers that were marked since it heard last of another life of
/// that source: those of the messages that were answered as new, and of its own that were accepted.
pub fn a_window_holds_what_a_life_marked()
    ensures { WindowsOfLives }
{}
