//! A least list of demands that cannot be met together, with a model of all others for each.
//!
//! What it is: `least`, which leaves out demands of a list of labelled clauses as long as the rest
//! is still refuted. What it promises: a model of all clauses; or demands that no assignment meets
//! together, with a model for each that meets all others, so that none can be left out; or a log
//! that spent the budget. What it stands on: `optimum_search` for each search, `explain_failure`
//! for the demands of a refutation, lists of clauses and logs (`clause_store`, `proof_log`). What
//! it must not know: what a demand asks, and how a search learns.
#![tactic(auto)]

mod broken;
mod least_list;
mod numbers;
mod part;
mod reasons;
mod reduction;
mod round;
mod theorems;

pub use least_list::least;
pub use reasons::LeastReasons;
pub use theorems::part_laws;
