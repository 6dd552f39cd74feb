//! The costs of graphs as bits behind the clauses of a problem.
//!
//! What it is: `post_order`, the names of a table, children before parents; `rank_costs`, which
//! adds the totals of the 31 numbers to the clauses; `number_ends`, where each number ends among
//! the bits.
//! What it promises: behind the clauses of a closure the bits rank the valid graphs by cost, and
//! spell their cost vectors. Within the limits of a problem each list of weights adds up to less
//! than 2^63, whatever formulas stand for the conditions, and in whatever order the names are.
//! What it stands on: `term_builder` for the terms, `cost_terms` for their totals, `valid_models`
//! for the clauses, `problem` for the limits.
//! What it must not know: how models are found.
#![tactic(auto)]

mod ends;
mod held;
mod limit_theorems;
mod order_theorems;
mod rank_theorems;
mod totals;
mod walk;

pub use ends::number_ends;
pub use limit_theorems::limit_laws;
pub use order_theorems::order_laws;
pub use rank_theorems::costs_laws;
pub use totals::rank_costs;
pub use valid_models::{closure_laws, plan_laws};
pub use walk::post_order;
