//! The formulas of demands and conditions, of variants, of edges that none asks for, and of
//! providers that none uses.
//!
//! What it is: builders of what speaks of paths, of conditions, or of all edges and names at once;
//! a builder is a struct of what its formulas have in common, and has a method for each.
//! What it promises: each builder answers the formula that the definition of its name in
//! `graph_formulas` computes, where the formulas of paths are those of the literals that levels
//! gave, and conditions have formulas (`MetConditions`); each errs for want of memory alone.
//! What it stands on: `word_formulas` for parts and rows, `graph_levels` for paths,
//! `condition_rules` for the definitions of a variant.
//! What it must not know: where a formula is used, and what gives a condition its formula.
#![tactic(auto)]

mod asking_rows;
mod below;
mod choices;
mod definitions;
mod demand_builder;
mod demands;
mod directives;
mod extra_edges;
mod extra_virtuals;
mod holds;
mod named_rows;
mod numbered;
mod spec_builder;
mod theorems;
mod together;
mod used;
mod variants;

pub use demands::demand_formula;
pub use extra_edges::extra_edges_formula;
pub use holds::condition_formula;
pub use theorems::term_laws;
pub use together::together_formula;
pub use used::used_formula;
pub use variants::variants_formula;
pub use word_formulas::{MetConditions, Scribe};
