// Graphs of which paths can be asked.
ghost use Rattle.std.specs.Prelude.{◌≡◌, IfOk};
ghost use Rattle.std.specs.List.{list_all};
ghost use Rattle.virtuals.specs.OfGraphCore.Paths.{reaches_in};

use crate::search::Below;
use std::alloc::{AllocError, Global};
use virtuals::{Graph, reaches};

/// A graph of which paths can be asked, by a search or by what was found before.
pub trait Paths {
    ghost use Rattle.std.specs.Prelude.{◌≡◌, IfOk};
    ghost use Rattle.std.specs.List.{list_all};
    ghost use Rattle.virtuals.specs.OfGraphCore.Graphs.{Content};
    ghost use Rattle.virtuals.specs.OfGraphCore.Paths.{reaches_in};

    ghost graph_of: { Self → Content };

    /// The graph.
    fn graph(&self) -> &Graph
        ensures { result.now ≡ graph_of self.now };

    /// Whether a path of one or more edges leads from one node to another.
    fn leads(&self, alloc: Global, from: &str, to: &str) -> Result<bool, AllocError>
        ensures { IfOk result (λ is. is ≡ reaches_in (graph_of self.now) from.now to.now) };

    /// Whether such paths lead from one node to each of these.
    fn leads_to_all(&self, alloc: Global, from: &str, names: &[&str]) -> Result<bool, AllocError>
        ensures { IfOk result (λ all. all
            ≡ list_all (λ name. reaches_in (graph_of self.now) from.now name.now) names.now) }
    {
        for name in names {
            if !self.leads(alloc, from, name)? {
                return Ok(false);
            }
        }
        Ok(true)
    }
}

/// A search over its edges for each question, and one for all nodes that are asked for together.
impl Paths for Graph {
    ghost graph_of = { λ graph. graph };

    fn graph(&self) -> &Graph {
        self
    }

    fn leads(&self, alloc: Global, from: &str, to: &str) -> Result<bool, AllocError> {
        reaches(alloc, self, from, to)
    }

    fn leads_to_all(&self, alloc: Global, from: &str, names: &[&str]) -> Result<bool, AllocError> {
        if names.is_empty() {
            return Ok(true);
        }
        let below = Below::new(alloc, self, from)?;
        Ok(names.iter().all(|name| below.leads_to(name)))
    }
}
