//! Schedules as text: all that can happen to an overlay, the scenario that a header says and the events after it, and the first bad line with its kind.
#![tactic(auto)]

mod feed;
mod header;
mod laws;
mod lead;
mod parsed;
mod printing;
mod reader;
mod refused;
mod scenario_copy;
mod stage;

pub use feed::Feed;
pub use laws::{
    a_good_text_is_read, a_reading_is_of_its_text, a_text_has_one_reading,
    no_other_text_begins_there, pieces_are_read_as_one,
};
pub use parsed::Parsed;
pub use printing::print;
pub use reader::read;
pub use refused::{Kind, ScheduleRefused, push_refused};
pub use sp_schedule_events::{
    Edge, Event, Fault, Graph, LineRefused, LmsHeight, Scenario, Timeline, is_bad,
};
pub use stage::{Ending, Reading, Stage};
