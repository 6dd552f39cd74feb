//! What is answered for a problem.

use graph_core::Graph;
use proof_log::Log;

/// What is answered for a problem, with the log of the search.
#[derive(Drop)]
pub enum Answer {
    /// An optimal graph, and a certificate of its costs.
    Best { graph: Graph, log: Log },
    /// No graph is valid, as the log refutes.
    Nothing { log: Log },
    /// One clause more than the budget was learnt.
    Undecided { log: Log },
}
