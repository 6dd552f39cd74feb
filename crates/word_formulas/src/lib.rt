//! Builders of the formulas of words, parts and rules.
//!
//! What it is: a scribe over a table of literals, with a method for each word, part and rule of
//! `graph_formulas` that speaks of no path.
//! What it promises: each method answers the formula that the definition of its name in
//! `graph_formulas` computes, and errs for want of memory alone.
//! What it stands on: `graph_formulas` for the definitions, `literal_table` for look-ups.
//! What it must not know: clauses.
#![tactic(auto)]

mod asked;
mod asked_nodes;
mod compilers;
mod directives;
mod edges;
mod extra_edges;
mod facts;
mod loops;
mod met;
mod node_rules;
mod parts;
mod scribe;
mod theorems;
mod variants;
mod virtual_nodes;

pub use loops::{each, each_where, some, some_where};
pub use met::MetConditions;
pub use scribe::Scribe;
pub use theorems::{plain_laws, row_laws};
