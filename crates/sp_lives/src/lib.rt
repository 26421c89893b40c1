//! The lives of nodes as one node knows them: of each node what it said of its last start. Objects and reports name the boots of their ends, and
//! are taken only under those that are held here. And the order in which what is held goes to each neighbour.
#![tactic(auto)]

mod lives;
mod origins;

pub use lives::Lives;
pub use origins::Origins;
