//! The administrator's topology: who is a node and under which key, and who is joined to whom. It has one spelling in bytes, and what
//! is refused is told by the first thing from the left that is wrong.
#![tactic(auto)]

mod document;
mod fault;
mod height;
mod key;
mod laws;
mod neighbours;
mod read;
mod refused;
mod topology;
mod write;

pub use fault::first_fault;
pub use laws::{a_graph_without_fault_is_in_range, a_topology_has_one_document};
pub use refused::TopologyRefused;
pub use topology::{Edge, LmsHeight, NodeKey, Topology};
