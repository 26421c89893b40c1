//! Journals that are read: the entries of a text, or its first bad line. The program never calls this: it is for tools, which judge what was written.
#![tactic(auto)]

mod effect_line;
mod follow;
mod item_words;
mod laws;
mod reader;
mod reply_line;
mod reply_rows;
mod stage;
mod summary_line;
mod text_laws;

pub use effect_line::read_effect;
pub use item_words::MAX_ITEMS;
pub use laws::{effects_have_one_line, entries_have_one_line, replies_have_one_line};
pub use reader::read;
pub use reply_line::{read_entry, read_reply};
pub use stage::{JournalRefused, Stage};
pub use text_laws::{
    a_good_journal_is_read, a_journal_is_of_its_text, a_journal_text_has_one_reading,
    no_other_journal_begins_there,
};
