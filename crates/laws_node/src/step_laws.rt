// The laws of each step of a node beside what it keeps: what never changes, which ids are given, what comes to be kept, what is answered.
ghost use Rattle.laws_node.specs.Asked.{WhatIsNewIsKept};
ghost use Rattle.laws_node.specs.Determined.{StepsAreDetermined};
ghost use Rattle.laws_node.specs.Epochs.{BootsNeverFall, EpochTaken, OwnBootStays};
ghost use Rattle.laws_node.specs.Ids.{IdsStayOwn};
ghost use Rattle.laws_node.specs.Objects.{ObjectsAreAnswered};
ghost use Rattle.laws_node.specs.Replaced.{IsReplaced};
ghost use Rattle.laws_node.specs.Shapes.{ShapesBegin, ShapesStart, ShapesStay};
ghost use Rattle.laws_node.specs.Spreading.{OffersAreTaken, OlderIsOffered, VersionsAreHeard};
ghost use Rattle.laws_node.specs.Withdrawals.{EachStepObeys, OnlyTheAdministratorChanges, StartObeys, VersionsRise};
ghost use Rattle.laws_node.specs.WithoutRows.{RowsAreNeeded};

/// A law: no step changes who a node is, its bounds, its keys, and what it has rows for. At the start of its life, with epochs or without,
/// these are rows for all ordered pairs of nodes and all neighbours, and the bounds that it was given.
pub fn no_step_changes_who_a_node_is_nor_its_bounds_nor_its_rows()
    ensures begin { ShapesBegin }
    ensures start { ShapesStart }
    ensures stay { ShapesStay }
{}

/// A law: in each place of a node the ids of its entries rise, so they differ; and a place that has given an id never gives it again.
pub fn each_entry_of_a_place_has_an_id_of_its_own()
    ensures { IdsStayOwn }
{}

/// A law: whatever is asked of messages, all that a node keeps after a step has it, if all that it kept before has it, and what the step
/// answered as new, and what the node signed in it.
pub fn what_is_kept_was_answered_as_new_or_signed_here()
    ensures { WhatIsNewIsKept }
{}

/// A law: an Epoch object that is answered as new says a boot above the one that was held of its origin. Then it is held, no number of
/// its origin was seen, the flows of its origin are as before their first message, and other flows and held boots stay. No held boot ever
/// falls, and the own one stays.
pub fn an_epoch_object_that_is_new_begins_another_life()
    ensures taken { EpochTaken }
    ensures rise { BootsNeverFall }
    ensures own { OwnBootStays }
{}

/// A law: the objects that the answers to a datagram speak of are those of the pieces that it brings, in their order.
pub fn the_objects_of_a_frame_are_answered_in_their_order()
    ensures { ObjectsAreAnswered }
{}

/// A law: two steps of one state on one input with one output lead to one state, where the arts fit and read each good message back from its
/// bytes.
pub fn what_a_step_tells_determines_what_it_leaves()
    ensures { StepsAreDetermined }
{}

/// An example: what tables without rows would do, and that no node has them.
pub fn tables_without_rows_forget()
    ensures { RowsAreNeeded }
{}

/// A law: a node runs under a topology that the administrator signed: one of the same nodes, keys and edges that follows the one before. No step lets
/// its version fall or a removed node return. Its parts know of it what it is now: nothing waits for a withdrawn edge or has a removed end, and no flow
/// with a removed end is active.
pub fn the_administrator_alone_changes_a_topology()
    ensures changes { OnlyTheAdministratorChanges }
    ensures rise { VersionsRise }
    ensures start { StartObeys }
    ensures obey { EachStepObeys }
{}

/// A law: a document goes on from node to node. A node keeps the version of the last frames of a neighbour; whose kept version is older is offered the own
/// document, over a withdrawn edge too; and who meets one that the administrator signed runs under the greater version of both.
pub fn a_document_is_offered_and_taken()
    ensures heard { VersionsAreHeard }
    ensures offered { OlderIsOffered }
    ensures taken { OffersAreTaken }
{}

/// An example: a worked replacement of a topology is computed: what it tells, whose flows end, and each answer that refuses one.
pub fn a_replacement_is_worked_out()
    ensures { IsReplaced }
{}
