// The paths from one node, kept while the graph rests: who asks again is answered without a search.
ghost use Rattle.std.specs.Prelude.{◌≡◌, ◌≤◌, ◌<◌, ◌-◌, ◌++◌, ◌∷◌, [], ◌↔◌, IfErr, IfOk, IfSome, IsNone, IsTrue};
ghost use Rattle.sp_base.specs.declared.limits.TheConstants.{MAX_NODES_2};
ghost use Rattle.sp_graph.specs.Edges.{IsGraph};
ghost use Rattle.sp_paths.specs.Cheapest.{AreLeast, IsNode};
ghost use Rattle.sp_paths.specs.Fewer.{SaysFewer};
ghost use Rattle.sp_routes.specs.Pages.{AnswersAt, IsAnswer, IsNew, IsPage, IsSame};
ghost use Rattle.sp_paths.specs.declared.limits.TheConstants.{MAX_PATHS};

use sp_base::{Listed, Memory, NodeId};
use sp_graph::Graph;
use sp_paths::{PathRefused, disjoint_paths};
use sp_topology::Edge;
use std::alloc::Global;
use std::marker::Model;

/// Paths that were found, and what was asked for.
#[derive(Drop)]
pub(crate) struct KeptSet {
    destination: NodeId,
    count: u8,
    paths: Listed<Listed<NodeId>>,
}

/// All sets that are kept: of one source in one graph.
#[derive(Drop)]
pub(crate) struct Page {
    graph: Graph,
    source: NodeId,
    sets: Vec<KeptSet>,
}

/// A book of the cheapest disjoint paths from one node in one graph: what was found is lent again, until another node asks or the graph changes.
///
/// A contract doesn't see what is kept: no answer depends on it. At most one set is kept for each destination and number of paths, so at most 248.
#[derive(Drop)]
pub struct PathBook {
    page: Page,
}

impl Model for PathBook {
    ghost use Rattle.sp_routes.specs.Pages.{IsPage};

    ghost Value = { Unit {0} };

    ghost view = { λ _. tt };

    ghost invariant = { λ b. IsPage b.page };
}

impl PathBook {
    /// A book that keeps nothing yet. It takes no memory.
    pub fn new(alloc: Global) -> PathBook {
        PathBook {
            page: Page {
                graph: Graph {
                    nodes: 0,
                    edges: Listed::from_vec(Vec::new(alloc)),
                },
                source: NodeId(0),
                sets: Vec::new(alloc),
            },
        }
    }

    /// What `disjoint_paths` answers, lent by the book: the cheapest paths that share no node but their ends and no edge, or its refusal.
    ///
    /// It searches, and takes memory, only where the book doesn't keep them. It keeps them then, and lets all others go where a node, an edge or a
    /// weight isn't as it was, or another source asks.
    pub fn get(
        &mut self,
        alloc: Global,
        graph: &Graph,
        source: NodeId,
        destination: NodeId,
        paths: u8,
    ) -> Result<&[Listed<NodeId>], PathRefused>
        requires graph { IsGraph graph.now }
        requires count { (1 ≤ paths) × (paths ≤ MAX_PATHS) }
        ensures found { IfOk result (λ found. AreLeast graph.now source destination paths found.now) }
        ensures unknown { (result ≡ Err PathRefused.Unknown) ↔ (¬ (IsNode graph.now source × IsNode graph.now destination)) }
        ensures same { (result ≡ Err PathRefused.SameEnds) ↔ (IsNode graph.now source × (source ≡ destination)) }
        ensures fewer { IfErr result (SaysFewer graph.now source destination paths) }
    {
        let place = self
            .page
            .place_for(alloc, graph, source, destination, paths)?;
        Ok(self.page.sets[place].paths.as_slice())
    }
}

impl Page {
    /// Where the paths stand that are asked for, after a search where they weren't there. A refusal leaves all as it was.
    fn place_for(
        &mut self,
        alloc: Global,
        graph: &Graph,
        source: NodeId,
        destination: NodeId,
        count: u8,
    ) -> Result<usize, PathRefused>
        requires page { IsPage self.old }
        requires graph { IsGraph graph.now }
        requires count { (1 ≤ count) × (count ≤ MAX_PATHS) }
        ensures page { IsPage self.new }
        ensures found { IfOk result (AnswersAt self.new graph.now source destination count) }
        ensures unknown { (result ≡ Err PathRefused.Unknown) ↔ (¬ (IsNode graph.now source × IsNode graph.now destination)) }
        ensures same { (result ≡ Err PathRefused.SameEnds) ↔ (IsNode graph.now source × (source ≡ destination)) }
        ensures fewer { IfErr result (SaysFewer graph.now source destination count) }
        ensures refused { IfErr result (λ _. IsSame self.old self.new) }
    {
        if let Some(place) = self.place_of(graph, source, destination, count) {
            return Ok(place);
        }
        let paths = disjoint_paths(alloc, graph, source, destination, count)?;
        let set = KeptSet {
            destination,
            count,
            paths,
        };
        match self.keep(alloc, graph, source, set) {
            Ok(place) => Ok(place),
            Err(Memory) => Err(PathRefused::Memory),
        }
    }

    /// Where so many paths to a destination stand. None exactly where they aren't kept.
    fn place_of(
        &self,
        graph: &Graph,
        source: NodeId,
        destination: NodeId,
        count: u8,
    ) -> Option<usize>
        requires { IsPage self.now }
        ensures some { IfSome result (AnswersAt self.now graph.now source destination count) }
        ensures none { IsNone result → IsNew self.now graph.now source destination count }
    {
        if !self.is_of(graph, source) {
            return None;
        }
        self.sets.iter().position(|set| set.destination.0 == destination.0 && set.count == count)
    }

    /// Keeps a set with the others of its source and its graph, or without those of another. Gives its place.
    fn keep(
        &mut self,
        alloc: Global,
        graph: &Graph,
        source: NodeId,
        set: KeptSet,
    ) -> Result<usize, Memory>
        requires page { IsPage self.old }
        requires nodes { graph.now.nodes ≤ MAX_NODES_2 }
        requires answer { IsAnswer graph.now source set }
        requires new { IsNew self.old graph.now source set.destination set.count }
        ensures page { IsPage self.new }
        ensures found { IfOk result (AnswersAt self.new graph.now source set.destination set.count) }
        ensures refused { IfErr result (λ _. IsSame self.old self.new) }
    {
        if self.is_of(graph, source) {
            self.sets.push(set)?;
            return Ok(self.sets.len() - 1);
        }
        *self = Page::first(alloc, graph, source, set)?;
        Ok(0)
    }

    /// Whether the sets are of this source in this graph.
    fn is_of(&self, graph: &Graph, source: NodeId) -> bool
        ensures { IsTrue result ↔ ((self.now.graph ≡ graph.now) × (self.now.source ≡ source)) }
    {
        self.source.0 == source.0
            && self.graph.nodes == graph.nodes
            && are_same(self.graph.edges.as_slice(), graph.edges.as_slice())
    }

    /// A page with one set alone.
    fn first(alloc: Global, graph: &Graph, source: NodeId, set: KeptSet) -> Result<Page, Memory>
        ensures graph { IfOk result (λ page. page.graph ≡ graph.now) }
        ensures source { IfOk result (λ page. page.source ≡ source) }
        ensures sets { IfOk result (λ page. page.sets.items ≡ set ∷ []) }
    {
        let edges = Vec::from_slice(alloc, graph.edges.as_slice())?;
        let mut sets = Vec::new(alloc);
        sets.push(set)?;
        Ok(Page {
            graph: Graph {
                nodes: graph.nodes,
                edges: Listed::from_vec(edges),
            },
            source,
            sets,
        })
    }
}

/// Whether the edges are the same, with their weights.
fn are_same(edges: &[Edge], others: &[Edge]) -> bool
    ensures { IsTrue result ↔ (edges.now ≡ others.now) }
{
    edges == others
}
