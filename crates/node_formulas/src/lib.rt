//! Builders of the formulas of the rules of one node, at all names of a table.
//!
//! What it is: the rows of rules of nodes to build, kept nodes and providers, each one formula.
//! What it promises: each builder answers what its row computes, and errs for want of memory alone.
//! What it stands on: `word_formulas` for facts and parts, `rule_checks` for the nodes of
//! externals.
//! What it must not know: clauses, paths, conditions.
#![tactic(auto)]

mod attributes;
mod built_rows;
mod children;
mod externals;
mod kept;
mod kept_rows;
mod kinds;
mod names;
mod origins;
mod provided;
mod provider_rows;
mod theorems;
mod variant_lists;

pub use built_rows::{buildable_row, compiler_row, machine_row, version_row};
pub use kept_rows::{kept_formula, kept_row};
pub use names::{each_name, each_virtual};
pub use provider_rows::provider_row;
pub use theorems::row_laws;
