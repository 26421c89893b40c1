//! Counted delivery of flows of either kind: what a source accepted is delivered, and its acknowledgement is back, after so many complete rounds of a path of
//! correct nodes. Messages on paths that wait go over the edges of their mask alone, so the path has those. Of runs in which nodes start and stop it is claimed
//! while those of the path stay in their lives and know those of its ends.
//! And told starts: while the nodes of a path stay up, each holds the boot of each other's life after so many rounds that tell starts.
//! What is counted is claimed within a version of the topology: while each node of the path runs under one version, which withdraws no edge of the path. Other
//! nodes may run under others, and the administrator may publish more.
//! Whatever is published, while the nodes of a path stay up, a version under which one of them runs comes to all after so many rounds.
#![tactic(auto)]

ghost use Rattle.laws_progress.specs.Counts.{FlowCountNeverFalls};
ghost use Rattle.laws_progress.specs.Delivery.{CountedDelivery, CountedReturn};
ghost use Rattle.laws_progress.specs.LifeDelivery.{CountedDeliveryInLives, CountedReturnInLives, CountedStarts, ToldPathsAreCalm};
ghost use Rattle.laws_progress.specs.Positions.{PositionsAreInOrder};
ghost use Rattle.laws_progress.specs.Rising.{VersionsRiseInLives};
ghost use Rattle.laws_progress.specs.Spreading.{SpreadPathsRunUnder, VersionsSpreadInRounds};
ghost use Rattle.laws_progress.specs.Worked.{RoundsAreCounted};
ghost use Rattle.laws_progress.specs.WorkedLives.{LivesAreCounted};
ghost use Rattle.laws_progress.specs.WorkedPositions.{PositionsAreWorked};
ghost use Rattle.laws_progress.specs.WorkedSpreading.{SpreadingIsWorked};
ghost use Rattle.laws_progress.specs.WorkedTelling.{TellingIsWorked};

/// A law: in every state no node's position of a flow between correct nodes is ahead of that flow's ends, its list is the source's messages, what it knows
/// of a neighbour is at most where that one stands, and each flow that waits for its turn is counted. Counted delivery rests on this.
pub fn positions_are_in_order()
    ensures { PositionsAreInOrder }
{}

/// A law: a message that a source accepted, at most b above its base, is delivered by the end of hops + b + 1 complete rounds of a path that it may go.
pub fn delivery_is_counted()
    ensures { CountedDelivery }
{}

/// A law: what a destination acknowledged is acknowledged at the source by the end of hops + 1 complete rounds, and the source has room again.
pub fn acknowledgements_return()
    ensures { CountedReturn }
{}

/// A law: over starts and stops, while the nodes of a path stay in their lives and hold the boots of its ends, a message that the source accepted under these
/// boots, at most k above its base, is delivered under them by the end of hops + k + 1 complete rounds. All other nodes may start and stop.
pub fn delivery_is_counted_in_lives()
    ensures { CountedDeliveryInLives }
{}

/// A law: over starts and stops, while the nodes of a path stay in their lives and hold the boots of its ends, what the destination acknowledged under these
/// boots is acknowledged at the source by the end of hops + 1 complete rounds, and the source has room again.
pub fn acknowledgements_return_in_lives()
    ensures { CountedReturnInLives }
{}

/// A law: the count of flows of a kind never falls when events are added. So who counts rounds may take that of all events of a run.
pub fn flow_counts_never_fall()
    ensures { FlowCountNeverFalls }
{}

/// A law: in worked examples, along three nodes, round a compromised node, and along one of the two paths of a message on paths, the first message is
/// delivered by the end of four rounds, and along the three nodes its acknowledgement is back by the end of three more, by the promises. The rounds are
/// computed.
pub fn two_examples_are_counted()
    ensures { RoundsAreCounted }
{}

/// A law: in a worked example of three nodes that start, whose starts are told, an interval of four rounds is calm, and the first message is delivered by its
/// end, by the promise. One in which a node of the path starts again isn't calm, nor one in which it holds an older boot of the source.
pub fn a_calm_interval_is_counted()
    ensures { LivesAreCounted }
{}

/// A law: what positions, lists, views and counts are claimed to be along three nodes, in numbers; and worlds that break one of these claims are refused.
pub fn positions_are_worked()
    ensures { PositionsAreWorked }
{}

/// A law: while the nodes of a path stay up, each holds the boot of each other's life after hops + 1 rounds that tell starts, whatever they held before.
pub fn starts_are_told_in_rounds()
    ensures { CountedStarts }
{}

/// A law: a path whose nodes know each other's lives is calm under the boots of its ends for as long as they stay up. So from any beginning the rounds until a
/// message arrives are those that tell starts, and then those of its delivery.
pub fn told_paths_are_calm()
    ensures { ToldPathsAreCalm }
{}

/// A law: while the nodes of a path stay up, each runs after hops + 1 rounds of at least one frame each way over each hop under at least the version that any
/// of them ran under before, over withdrawn edges too. So what an administrator publishes at one node reaches all of them.
pub fn versions_spread_in_rounds()
    ensures { VersionsSpreadInRounds }
{}

/// A law: where a node of a path ran under the last version, and it has spread over the path, each node of the path runs under it, with its weights. So from a
/// publication the rounds until a path runs under a version are counted, and from there those of a delivery within it.
pub fn spread_paths_run_under()
    ensures { SpreadPathsRunUnder }
{}

/// A law: while a node stays in its life, the version that it runs under never falls, and who is removed at it stays removed.
pub fn versions_never_fall()
    ensures { VersionsRiseInLives }
{}

/// A law: in a worked example three nodes in a row start, and by the end of three rounds the last runs under at least the version of the first, by the promise;
/// and where a node took another version alone, that one hasn't spread, and the node doesn't
/// go back while it stays up.
pub fn spreading_is_worked()
    ensures { SpreadingIsWorked }
{}

/// A law: in a worked example three nodes in a row start, and by the end of three rounds that tell starts each end holds the boot of the other's life, by the
/// promise. The rounds are computed; and rounds in which a frame is missing or comes late are none.
pub fn telling_is_worked()
    ensures { TellingIsWorked }
{}
