//! The best graph of a problem, or why there is none, each with the log that shows it.
//!
//! What it is: `best_graph`, `explain` and `explain_least` of a problem and the names that its
//! nodes may have; the laws of what logs over its encoding show.
//! What it promises: an optimal graph, or that no graph is valid, or that the budget of learnt
//! clauses was spent; of `explain` that some graph is valid, or exactly the demands that a
//! refutation rests on, for which alone no graph is valid; of `explain_least` demands of which
//! besides none can be left out, each with a graph that is valid for all others. A certificate of
//! the bits that spell a valid graph's costs shows that it is optimal, and a refutation of the
//! rules that no graph is valid.
//! What it stands on: `problem_encoding` for the clauses, `optimum_search` for the least bits,
//! `explain_failure` for the demands of a refutation, `reason_minimum` for a least list of them,
//! `proof_log` for logs.
//! What it must not know: how graphs are spelled, how a log is checked, and what is read or said.
#![tactic(auto)]

mod answer;
mod best;
mod explanation;
mod least_explanation;
mod least_reasons;
mod lines;
mod meaning;
mod reasons;
mod searched;
mod theorems;

pub use answer::Answer;
pub use best::best_graph;
pub use explanation::Explanation;
pub use least_explanation::LeastExplanation;
pub use least_reasons::explain_least;
pub use reasons::explain;
// What is told of a run.
pub use optimum_search::{Progress, Stage, Untold};
// What crates above encode with.
pub use problem_encoding::{Encoded, Rules, encode, encode_rules, values_of, with_costs};
pub use theorems::verdict_laws;
