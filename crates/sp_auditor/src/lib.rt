//! The auditor's program as one call over files that it is handed: a schedule and a journal go in, the verdict on the run that they tell comes out.
#![tactic(auto)]

mod answer;
mod cause;
mod count;
mod journal;
mod laws;
mod lines;
mod reading;
mod schedule;
mod top;
mod verdict;

pub use answer::Answer;
pub use cause::{Cause, Unfit};
pub use count::{Count, counted};
pub use journal::MAX_JOURNAL_BYTES;
pub use laws::{a_run_has_one_verdict, no_cause_beside_a_verdict, texts_have_their_verdict};
pub use sp_words::{AuditLine, AuditStatus, RoundsQuery, WordsRefused, parse_audit};
pub use top::run;
pub use verdict::{Verdict, judge};
