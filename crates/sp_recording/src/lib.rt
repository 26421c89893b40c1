//! The text of a daemon's recording, both ways: a line for each thing that happened with the digest of what the node answered, written as it happens,
//! and read up to the first bad line.
#![tactic(auto)]

mod laws;
mod lead;
mod line;
mod line_rows;
mod line_text;
mod outer_rows;
mod reader;
mod said;
mod stage;

pub use laws::{
    a_good_recording_is_read, a_reading_is_of_its_text, a_text_has_one_reading,
    lines_have_one_spelling,
};
pub use line::{Closing, Digest, Line, LineRef, MAX_BOOT, MAX_TURNS, Opening};
pub use line_text::{push_closing, push_line, push_opening};
pub use reader::read;
pub use stage::{Ending, Reading, Stage};
