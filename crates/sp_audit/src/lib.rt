//! An auditor for anybody's run without epochs: it judges events and their journal by the definitions alone.
#![tactic(auto)]

mod acts;
mod correct;
mod counted;
mod flows;
mod made;
mod messages;
mod once;
mod path;
mod refused;
mod share;
mod shelf;
mod sweeps;
mod top;
mod whole;

pub use counted::rounds;
pub use flows::flow_count;
pub use refused::AuditRefused;
pub use whole::audit;
