//! What is answered.

use plain_data::List;
use proof_log::Log;

/// Whether some graph is valid, and else why none is.
#[derive(Drop)]
pub enum Explanation {
    /// Some graph is valid.
    Satisfiable,
    /// None is, not even for these demands alone: their numbers among those of the problem, from 0,
    /// rising and each once. They are just those on which the refutation rests that the log is.
    Unmet { demands: List<u64>, log: Log },
    /// One clause more than the budget was learnt.
    Undecided { log: Log },
}
