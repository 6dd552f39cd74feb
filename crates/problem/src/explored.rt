//! A graph with all its paths.
ghost use Rattle.std.specs.Prelude.{◌≡◌, IfOk};

use condition_rules::Paths;
use graph_core::{Graph, Reach};
use std::alloc::{AllocError, Global};
use std::marker::Model;

/// A graph of which all paths were found once, seen as the graph.
#[derive(Drop)]
pub struct Explored<'a> {
    graph: &'a Graph,
    reach: Reach<'a>,
}

impl<'a> Model for Explored<'a> {
    ghost use Rattle.std.specs.Prelude.{◌≡◌};
    ghost use Rattle.graph_core.specs.Graphs.{Content};

    ghost Value = { Content };

    ghost view = { λ explored. explored.graph.now };

    ghost invariant = { λ explored. explored.reach ≡ explored.graph.now };
}

impl<'a> Explored<'a> {
    /// Finds all paths of a graph.
    pub fn new(alloc: Global, graph: &'a Graph) -> Result<Explored<'a>, AllocError>
        ensures { IfOk result (λ explored. explored ≡ graph.now) }
    {
        let reach = Reach::new(alloc, graph)?;
        Ok(Explored { graph, reach })
    }
}

/// Paths are looked up, without memory.
impl<'a> Paths for Explored<'a> {
    ghost graph_of = { λ explored. explored };

    fn graph(&self) -> &Graph {
        self.graph
    }

    fn leads(&self, _: Global, from: &str, to: &str) -> Result<bool, AllocError> {
        Ok(self.reach.leads(from, to))
    }
}
