//! The laws of paths: what proves that disjoint paths are the cheapest, and what proves that there are no more of them.
#![tactic(auto)]

mod laws;

pub use laws::{
    a_small_cut_proves_fewer, paths_are_at_most_the_arcs_out_of_a_cut,
    potentials_prove_the_least_cost, the_cheapest_path_may_be_a_trap,
};
