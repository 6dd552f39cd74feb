//! Formulas over literals as plain data, and the clauses that say them.
//!
//! It promises: `define` gives a formula a value, `assert` and `demand_in` ask for it; each call
//! equals a computing definition (so that clauses have fixed numbers), and has one law, which says
//! what the new clauses ask of the old variables. Constants fold, any-ofs in any-ofs flatten, an
//! implication is one clause, only what stands under the other sign takes a variable, and over a
//! table of gates none is made twice. `exactly_one` is true exactly where one literal of a list is,
//! and `push_few` adds formulas that are all true exactly where at most one is, in some n log n
//! clauses. It stands on `clause_circuits`, whose words of growth it takes over. It must not know
//! what literals mean.
#![tactic(auto)]

mod asked;
mod claims;
mod defined;
mod few;
mod formula;
mod gates;
mod list_laws;
mod range;
mod spread;
mod theorems;
mod values;

pub use claims::{assert, assert_in, demand_all_in, demand_in};
pub use defined::Defined;
pub use few::{exactly_one, push_few};
pub use formula::Formula;
pub use gates::Gates;
pub use list_laws::{few_laws, worked_lists};
pub use range::{are_below, is_below};
pub use theorems::{gate_laws, rule_laws, word_laws, worked_claims, worked_gates, worked_values};
pub use values::{define, define_all_in, define_in, literal};
