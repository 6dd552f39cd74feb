//! The 31 lists of terms of a problem's costs, built from its table.
//!
//! What it is: `cost_terms` of a problem, a table, the conditions' values of each name, and an
//! order of the names; a module for each kind of term: `difference_terms`, `edge_terms`,
//! `provider_terms`, `variant_terms`.
//! What it promises: the lists are just those that the crate `cost_terms` computes; an error is
//! want of memory alone.
//! What it stands on: `cost_terms` for the definitions and for terms of attributes, `cost_vector`
//! for the weights of virtuals.
//! What it must not know: clauses and bits, and how the conditions' values were found.
#![tactic(auto)]

mod assembly;
mod blocks;
mod definitions;
mod difference_terms;
mod edge_terms;
mod governing;
mod held;
mod provider_terms;
mod variant_terms;

pub use assembly::cost_terms;
pub use difference_terms::{push_compilers_differ, push_texts_differ};
pub use edge_terms::push_edges;
pub use provider_terms::push_providers;
pub use variant_terms::{Counted, push_variants};
