//! The arts of this format as one value, which the rules of a node leave open: its frames, tags and signatures; and the laws that they fit.
#![tactic(auto)]

mod format;

pub use format::{a_polled_frame_is_read_back, the_arts_of_the_format_fit};
