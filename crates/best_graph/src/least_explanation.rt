//! What is answered where it is to be as short as can be.

use graph_core::Graph;
use plain_data::List;
use proof_log::Log;

/// Whether some graph is valid, and else why none is, by a list of which nothing can be left out.
#[derive(Drop)]
pub enum LeastExplanation {
    /// Some graph is valid.
    Satisfiable,
    /// No graph is valid for these demands: their numbers among those of the problem, from 0,
    /// rising and each once. For each there is, at its place, a graph that is valid for all others.
    Least {
        demands: List<u64>,
        graphs: List<Graph>,
    },
    /// One clause more than the budget was learnt over the clauses of these demands, rising and
    /// each once: all there are, or those for which, with one more, no graph is valid.
    Undecided {
        demands: List<u64>,
        log: Log,
    },
}
