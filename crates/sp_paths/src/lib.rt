//! The cheapest disjoint paths of a graph.
#![tactic(auto)]

mod apart;
mod augment;
mod certified;
mod cheapest;
mod checked;
mod costs;
mod fewer;
mod found;
mod grow;
mod lane;
mod lanes_of;
mod laws;
mod limits;
mod nearest;
mod nodes_of;
mod parts;
mod paths;
mod refused;
mod route;
mod search;
mod summed;
mod used;
mod walk;
mod walked;
mod walks;

pub use cheapest::{disjoint, disjoint_paths};
pub use checked::check;
pub use laws::{what_is_accepted_is_least, what_is_found_is_accepted};
pub use limits::MAX_PATHS;
pub use paths::Paths;
pub use refused::PathRefused;
