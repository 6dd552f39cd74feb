// The plan of a graph.
ghost use Rattle.std.specs.Prelude.{IfOk};
ghost use Rattle.graph_core.specs.OfReachability.Paths.{IsAcyclic};
ghost use Rattle.graph_core.specs.Paths.{JoinedIn};
ghost use Rattle.install_plan.specs.Plans.{IsPlan};

use crate::by_wave::by_wave;
use crate::chain::chain_of;
use crate::children::built_children;
use crate::numbers::numbers_of;
use graph_core::Graph;
use plain_data::{List, Word};
use std::alloc::{AllocError, Global};

/// Which packages of a graph to build when.
#[derive(Debug, Drop)]
pub struct Plan {
    /// The names of each wave, in byte order: what a wave builds needs only what waves before it build.
    pub waves: List<List<Word>>,
    /// A package of each wave, from the last wave down to the first, each with an edge to the next.
    pub chain: List<Word>,
}

/// The plan of a graph without a cycle: each package to build in the earliest wave that it can have.
///
/// Packages that are not built stand in no wave, and nothing waits for them. Passes each edge twice, and looks its ends
/// up in binary searches.
pub fn waves(alloc: Global, graph: &Graph) -> Result<Plan, AllocError>
    requires { IsAcyclic (JoinedIn graph.now) }
    ensures { IfOk result (λ plan. IsPlan graph.now plan.waves plan.chain) }
{
    let children = built_children(alloc, graph)?;
    let numbers = numbers_of(alloc, children.as_slice())?;
    let waves = by_wave(alloc, graph, numbers.as_slice())?;
    let chain = chain_of(alloc, graph, waves.as_slice())?;
    Ok(Plan {
        waves: List::from_vec(waves),
        chain,
    })
}
