//! The laws of meters, over whatever the two ends of a link send each other, and whatever of it arrives, in any order and any number of times: an echo proves
//! receipt, costs and weights are those of the last probes, and publications rest.
#![tactic(auto)]

ghost use Rattle.laws_measure.specs.Laws.{CostsAreTheLast, EchoesAreNeverBad, NewEchoesProveReceipt, OpeningsAreCounted, ProbesLeaveNoGap, PublicationsRest};
ghost use Rattle.laws_measure.specs.Laws.{WeightsAreOfTheLast};
ghost use Rattle.laws_measure.specs.Worked.{WorkedCosts, WorkedProbes, WorkedWeights};

/// A law: neither end ever answers that a probe of the other leaves a gap.
pub fn probes_leave_no_gap()
    ensures { ProbesLeaveNoGap }
{}

/// A law: neither end ever answers that an echo of the other is bad.
pub fn echoes_are_never_bad()
    ensures { EchoesAreNeverBad }
{}

/// A law: where an echo is new, the other end had answered that it is new to each of the probes up to its number, once each and in their order.
pub fn new_echoes_prove_receipt()
    ensures { NewEchoesProveReceipt }
{}

/// A law: the costs that an end keeps are the last 32 of all that it measured.
pub fn costs_are_the_last()
    ensures { CostsAreTheLast }
{}

/// A law: a weight that is due is that of the last 32 costs that its end measured, of which there are so many, and is never below the minimum.
pub fn weights_are_of_the_last()
    ensures { WeightsAreOfTheLast }
{}

/// A law: any two publications of one end are at least the interval apart.
pub fn publications_rest()
    ensures { PublicationsRest }
{}

/// A law: an end opened at most as many probes as it made frames, and at most as many carry the open one.
pub fn openings_are_counted()
    ensures { OpeningsAreCounted }
{}

/// An example, computed by the checker: probes and echoes between two nodes that start, with each answer there is.
pub fn probes_are_worked_out()
    ensures { WorkedProbes }
{}

/// An example, computed by the checker: what probes cost, with frames that were lost, and at most 1,000,000.
pub fn costs_are_worked_out()
    ensures { WorkedCosts }
{}

/// An example, computed by the checker: weights by 32 costs, when one is due, and what a tick publishes.
pub fn weights_are_worked_out()
    ensures { WorkedWeights }
{}
