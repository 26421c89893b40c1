//! What happens to an overlay, one event after the other, and the line that says each.
#![tactic(auto)]

mod craft_line;
mod document_line;
mod documents;
mod event;
mod event_acting;
mod event_copy;
mod event_line;
mod event_text;
mod frame_line;
mod joined;
mod laws;
mod life_line;
mod line_of;
mod lines;
mod nodes;
mod path_line;
mod poll_counts;
mod published;
mod scenario;
mod started_nodes;
mod timeline;

pub use event::Event;
pub use event_text::push_event;
pub use laws::events_have_one_line;
pub use lines::read_event;
pub use nodes::is_bad;
pub use published::{Published, add_list, list_in, none_published};
pub use scenario::Scenario;
pub use sp_graph::Graph;
pub use sp_lines::{Fault, LineRefused};
pub use sp_topology::{Edge, LmsHeight};
pub use timeline::Timeline;
