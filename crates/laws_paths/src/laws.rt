// What a certificate and a cut prove, of any paths through any graph.
ghost use Rattle.laws_paths.specs.Laws.{CertifiedIsLeast, CutBoundsPaths, SmallCutProvesFewer};
ghost use Rattle.laws_paths.specs.TrapGraph.{TrapHolds};

/// A law: disjoint paths are the cheapest of their number, where some potentials leave no residual arc with a reduced cost below 0.
pub fn potentials_prove_the_least_cost()
    ensures { CertifiedIsLeast }
{}

/// A law: there are at most as many disjoint paths as arcs lead out of any set of parts with the source and without the destination.
pub fn paths_are_at_most_the_arcs_out_of_a_cut()
    ensures { CutBoundsPaths }
{}

/// A law: where a cut has fewer arcs than there should be paths, so many disjoint paths don't exist.
pub fn a_small_cut_proves_fewer()
    ensures { SmallCutProvesFewer }
{}

/// A worked graph, computed by the checker: its cheapest path costs 3, its cheapest two cost 10, and a cut of one part proves that there aren't three.
pub fn the_cheapest_path_may_be_a_trap()
    ensures { TrapHolds }
{}
