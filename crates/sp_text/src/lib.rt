//! Texts, read line by line: the words, numbers and byte strings of a line each have one spelling, nothing else is read as it,
//! and what is refused is told by the first place that is wrong.
#![tactic(auto)]

mod hex_word;
mod lines;
mod named_line;
mod numbers;
mod place;
mod word_list;

pub use hex_word::{hex_array, hex_bytes, hex_word_bytes, push_hex};
pub use lines::{Lines, first_line, lines_have_one_text};
pub use named_line::{fields, is_number, is_word, node_in, number_in};
pub use numbers::{number, push_number};
pub use place::{At, Line, TextRefused};
pub use word_list::{split_at_spaces, words, words_come_back, words_have_one_line};
