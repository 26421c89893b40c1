//! Journals as text: what was answered to each event of a run and what it caused, the one text of that, and its summary.
#![tactic(auto)]

mod effect_text;
mod entry;
mod replies;
mod whole_text;

pub use entry::{AnswerWord, Entry, ItemWord, LinkWord, Reply, SectionWord};
pub use replies::{entry_text, reply_text};
pub use whole_text::{
    delivered_in, frames, journal_lines, journal_text, priority_in, push_summary, sent,
};
