//! What a search for a least list of demands ends with.

use plain_data::List;
use proof_log::Log;

/// Whether all clauses can be met, and else a least list of demands that cannot be met together.
///
/// The clauses of a list of demands are those of the structure and those labelled with a demand of
/// the list, in their order. Each list of demands rises and has each once.
#[derive(Drop)]
pub enum LeastReasons {
    /// A model of all clauses: a value for each variable.
    Satisfiable {
        model: List<bool>,
    },
    /// No assignment meets the clauses of these demands. For each demand there is, at its place, a
    /// model of the clauses of the others.
    Minimal {
        demands: List<u64>,
        models: List<List<bool>>,
    },
    /// The budget was spent over the clauses of these demands, as the log shows. They are all that
    /// label a clause, or, with `more`, no assignment meets their clauses and those of this one.
    Spent {
        demands: List<u64>,
        more: Option<u64>,
        log: Log,
    },
}
