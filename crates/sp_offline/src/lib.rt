//! The commands that work offline, whole input in, whole output out: `topology` turns an administrator's draft into the signed document that
//! every node trusts, and `paths` the text of a graph into the cheapest disjoint paths between two of its nodes, or how many there are.
#![tactic(auto)]

mod answered;
mod command;
mod draft_answer;
mod draft_document;
mod paths_answer;
mod paths_lines;
mod paths_query;
mod paths_refusal;
mod signed_draft;

pub use answered::{Answered, Verdict, answer};
pub use command::Offline;
pub use draft_answer::{DraftAnswer, signed_topology};
pub use paths_answer::{PathsAnswer, cheapest_paths};
pub use paths_query::Query;
