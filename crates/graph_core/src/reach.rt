//! All paths of a graph at once.
ghost use Rattle.std.specs.Prelude.{◌≡◌, IfOk};
ghost use Rattle.graph_core.specs.Paths.{reaches_in};

use crate::Graph;
use crate::paths::numbered;
use keyed_lists::PathTable;
use std::alloc::{AllocError, Global};
use std::marker::Model;

/// A graph of which all paths were found, seen as the graph: it is asked without memory.
#[derive(Drop)]
pub struct Reach<'a> {
    graph: &'a Graph,
    /// The paths between the places of its nodes.
    table: PathTable,
}

impl<'a> Model for Reach<'a> {
    ghost use Rattle.std.specs.Prelude.{map};
    ghost use Rattle.keyed_lists.specs.OfReachability.Places.{IsKeyTable};
    ghost use Rattle.graph_core.specs.Graphs.{Content, IsGraph, name_of};
    ghost use Rattle.graph_core.specs.Paths.{arcs_of};

    ghost Value = { Content };

    ghost view = { λ reach. reach.graph.now };

    ghost invariant = { λ reach. record { graph : IsGraph reach.graph.now; table : IsKeyTable (map name_of reach.graph.now.nodes) (arcs_of reach.graph.now) reach.table } };
}

impl<'a> Reach<'a> {
    /// Finds all paths of a graph: a search from each node, and a bit for each two.
    pub fn new(alloc: Global, graph: &'a Graph) -> Result<Reach<'a>, AllocError>
        ensures { IfOk result (λ reach. reach ≡ graph.now) }
    {
        let arcs = numbered(alloc, graph)?;
        let table = PathTable::new(alloc, graph.nodes().len(), arcs.as_slice())?;
        Ok(Reach { graph, table })
    }

    /// Whether a path of one or more edges leads from one node to another.
    pub fn leads(&self, from: &str, to: &str) -> bool
        ensures { result ≡ reaches_in self.now from.now to.now }
    {
        let Ok(start) = self.graph.node_place(from) else {
            return false;
        };
        let Ok(end) = self.graph.node_place(to) else {
            return false;
        };
        self.table.leads(start, end)
    }
}
