// The laws of link weights over every list of updates: what counts is the last update of each end, and never less than the minimum.
ghost use Rattle.laws_node.specs.WeightLaws.{EffectiveIsGreatest, NeverBelowTheMinimum};

/// A law: the effective weight of an edge is never below the administrator's minimum.
pub fn an_effective_weight_is_never_below_the_minimum()
    ensures { NeverBelowTheMinimum }
{}

/// A law: over every list of updates, each of them held where it is new when it comes, the effective weight of an edge is the greatest
/// of the minimum and the last held weight of each end.
pub fn an_effective_weight_is_the_greatest_of_the_last_ones()
    ensures { EffectiveIsGreatest }
{}
