//! Sessions of clients: each request runs once or not at all, whatever the network repeats, and a repeat gets the reply of the first time.
#![tactic(auto)]

mod answer;
mod ask;
mod clients;
mod limits;
mod local;
mod reading;
mod request;
mod session;
mod spelling;

pub use answer::Answer;
pub use clients::Clients;
pub use limits::{MAX_PATHS, MAX_REPLY_BYTES, MAX_REQUEST_BYTES, MAX_REQUEST_NUMBER, MAX_SESSIONS};
pub use local::{BadEnd, Local};
pub use reading::{read_request, requests_have_one_line};
pub use request::{Command, Request};
pub use sp_msg::SendRefused;
