//! A problem as clauses whose models are its valid graphs, with bits that compare as their costs.
//!
//! What it is: `encode` of a problem and the names that its nodes may have, in two steps:
//! `encode_rules`, whose clauses alone say whether there is a graph, and `with_costs`; `values_of`
//! a cost vector.
//! What it promises: one encoding for each problem, whose models decode to just the valid graphs,
//! for each set of demands; their bits compare as cost vectors, and spell them.
//! What it stands on: `table_building` for literals, `problem_formulas` for rules and their
//! clauses, `ranked_costs` for the bits.
//! What it must not know: how models are found, and what is read or written.
#![tactic(auto)]

mod encoded;
mod spelled;

pub use encoded::{Encoded, Rules, encode, encode_rules, with_costs};
pub use ranked_costs::number_ends;
pub use spelled::values_of;
