//! The rules of a whole node as definitions alone, a file for each part: what the part keeps, and what each event does to it.
//! They stand on ids, messages, the topology and frames, never on schedules, journals or text.
#![tactic(auto)]

mod answers;
mod kflow;
mod link;
mod lives;
mod node;
mod prio;
mod rel;
mod sends;
mod store;
mod weights;
mod window;

pub use answers::{
    AckAnswer, DocumentAnswer, EpochAnswer, Item, PrioAnswer, RelAnswer, WeightAnswer,
};
pub use kflow::{FlowKind, KRoom, KSend, PathsTo};
pub use link::LinkAnswer;
pub use lives::{EpochJudged, Life};
pub use node::{LinkReply, MAX_CALLS, NodeRefused, Step, Taken, TickReply};
pub use prio::{Neighbour, PrioJudged};
pub use rel::{AckJudged, RelJudged, RelRefused};
pub use sends::PrioSend;
pub use store::{Entry, IDS, Put};
pub use weights::{MAX_OWN_HEARD, Offer};
pub use window::WINDOW;
