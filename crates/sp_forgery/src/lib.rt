//! Which arrivals are forged: a tag that a correct neighbour never made, an object that its correct signer never signed, or a document that was adopted
//! and that the administrator never handed out. It is decided at each event, from the frames that were made, the events before and their journal.
//!
//! # The order of calls
//! `Hints` remembers at which event a message may have been signed. Before a node takes a datagram, `document_of` reads the document that it may bring. After
//! the node answered, `judge` says what of it is forged, with that, the hints, the frames that were made and the events before, and takes no memory. Then
//! `note` tells the hints what the event signed.
#![tactic(auto)]

mod documents;
mod hints;
mod judging;
mod nodes;
mod objects;
mod signed;
mod tags;

pub use documents::{Brought, document_of};
pub use hints::Hints;
pub use judging::{Forgery, MAX_MESSAGE_BYTES, judge};
pub use nodes::is_correct;
pub use objects::Known;
