//! The runs of a world: which bytes reach whom, that each event is a step of its acting node alone, what a journal says of it, and which
//! events are forged. For whoever asks what the world promises: these are all its words.
#![tactic(auto)]

mod what;

pub use what::What;
