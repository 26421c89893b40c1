//! Frames, the datagrams between neighbours: a head, sections of signed messages, and a tag over both. A frame is read in place from the
//! left, and what is refused is told by the first thing that is wrong.
#![tactic(auto)]

mod frame;
mod head;
mod judging;
mod kind;
mod laws;
mod lengths;
mod object;
mod probe;
mod refused;
mod reports;
mod sections;
mod writing;

pub use frame::{Frame, HEAD_BYTES, MAX_FRAME_BYTES, MIN_FRAME_BYTES, TAG_BYTES};
pub use head::Head;
pub use kind::Kind;
pub use laws::{a_frame_is_its_head_its_sections_and_its_tag, sections_have_one_spelling};
pub use object::ObjectRef;
pub use probe::Probe;
pub use refused::{FrameRefused, SectionRefused};
pub use sections::{MOST_OBJECTS, Sections, Slot};
pub use writing::{MAX_DOCUMENT_BYTES, OutSections, OutSlot, write, write_document};
