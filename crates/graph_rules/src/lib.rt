//! The book: which graphs are valid, and what they cost.
//!
//! What it is: the rules of a valid graph, one short definition each, said of one node and one
//! directive where that can be; the weights of choices, the criteria that sum them, and the vector
//! of all sums.
//! What it promises: definitions in `specs/` that compute: `valid`, `valid_for` some demands,
//! `verdict`, the first broken rule; `criteria`, fifteen of them, `vector`, 31 numbers, and
//! `IsOptimal`, that no valid graph has a smaller one; and the laws of `theorems` and `cost_order`.
//! What it stands on: `problem` for what is asked, `condition_rules` for conditions.
//! What it must not know: clauses, literals, levels, bits of sums, and how a graph is found.
#![tactic(auto)]

mod cost_order;
mod criterion;
mod rule;
mod theorems;

pub use cost_order::{vector_laws, weights_are_places};
pub use criterion::{Attribute, CRITERIA, Criterion, NUMBERS, Summed};
pub use rule::{Rule, Verdict};
pub use theorems::{closure_laws, kept_laws, rule_laws, valid_laws, variant_laws};
