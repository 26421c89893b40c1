//! Lines as rows of a table: a form of line is a list of places, its words are read from the left to the first fault, and its values have one spelling.
#![tactic(auto)]

mod fault;
mod laws;
mod next_line;
mod number_list;
mod places;
mod writing;

pub use fault::{Fault, LineRefused};
pub use laws::rows_have_one_spelling;
pub use next_line::next_words;
pub use number_list::{numbers, push_numbers_field};
pub use places::{bytes, digest, mask, named, ranged};
pub use writing::{push_field, push_hex_field, push_mask_field, push_name_field};
