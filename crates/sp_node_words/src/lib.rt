//! What a node answers, in the words of a journal: the entry of each answer, with what it caused. A daemon's recording has the digests of these.
#![tactic(auto)]

mod entries;
mod words;

pub use entries::{entry_in, entry_of, quiet, spent, told};
pub use words::{item_words, link_word, refused_word, tick_word};
