//! The laws of every step of a node: whatever is called and whatever arrives, what the node keeps stays within its bounds, in its ranges,
//! signed and counted; and who it is, its bounds and its rows stay. Those of its whole life, and those of its parts over every list of
//! their own events: links, weights, windows and stores.
#![tactic(auto)]

mod life_laws;
mod link_laws;
mod priority_laws;
mod step_laws;
mod weight_laws;

ghost use Rattle.laws_node.specs.Acknowledgement.{AcknowledgementIsWorked};
ghost use Rattle.laws_node.specs.Laws.{BootKeeps, EachStepKeeps, ExtendKeeps, FramesFit, StartKeeps};

pub use life_laws::{
    a_node_keeps_the_greatest_pair_of_each_neighbour, a_window_holds_what_a_life_marked,
    an_effective_weight_is_what_a_life_tells,
};
pub use link_laws::{a_link_keeps_the_greatest_pair, no_frame_is_fresh_twice};
pub use priority_laws::{
    a_full_store_has_a_victim, a_full_store_leaves_fair_shares,
    a_window_sees_its_marks_and_all_numbers_far_below, an_entry_is_next_unless_the_store_is_empty,
    what_is_marked_is_seen, what_is_seen_stays_seen,
};
pub use step_laws::{
    a_document_is_offered_and_taken, a_replacement_is_worked_out,
    an_epoch_object_that_is_new_begins_another_life, each_entry_of_a_place_has_an_id_of_its_own,
    no_step_changes_who_a_node_is_nor_its_bounds_nor_its_rows, tables_without_rows_forget,
    the_administrator_alone_changes_a_topology, the_objects_of_a_frame_are_answered_in_their_order,
    what_a_step_tells_determines_what_it_leaves, what_is_kept_was_answered_as_new_or_signed_here,
};
pub use weight_laws::{
    an_effective_weight_is_never_below_the_minimum,
    an_effective_weight_is_the_greatest_of_the_last_ones,
};

/// A law: at the start of its life, with epochs or without, and after each step, a node holds at most as many messages of each flow and
/// entries of each store as its own bounds say, and of each node the Epoch object of one life at most, each in its place and its ranges, with
/// its signer's valid signature; at most four priority messages are in flight to each neighbour, under numbers that were given; link numbers
/// are at most four for each call, and ids four for each call and one for each signature made; and each frame that it makes is in the ranges
/// of its grammar. That the bounds stay as they were given is a law of its own.
pub fn each_step_keeps_what_a_node_keeps()
    ensures boot { BootKeeps }
    ensures start { StartKeeps }
    ensures step { EachStepKeeps }
    ensures extend { ExtendKeeps }
    ensures frames { FramesFit }
{}

/// A law: three nodes in a row hand on a message and its acknowledgement, and answer each event as the rules were worked out by hand.
pub fn a_message_and_its_acknowledgement_are_worked_out()
    ensures { AcknowledgementIsWorked }
{}
