//! Graphs: nodes and weighted edges between them, and their texts. Paths through a graph, what they cost, and what proves that they are the cheapest.
#![tactic(auto)]

mod edge_line;
mod fields;
mod graph;
mod laws;
mod line;
mod mask;
mod part;
mod reader;
mod refused;
mod stage;

pub use edge_line::edge;
pub use graph::Graph;
pub use laws::{a_text_has_one_reading, graphs_are_read_from_their_texts};
pub use mask::forwards;
pub use part::Part;
pub use reader::read;
pub use refused::GraphRefused;
