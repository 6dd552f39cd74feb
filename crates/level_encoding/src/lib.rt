//! Levels and paths as clauses: chosen arcs without a cycle, founded nodes, and where paths lead.
//!
//! It promises of `levels`: in each model the chosen arcs have no cycle and each chosen node is
//! founded; each choice with these two properties extends to one; a path's literal is true exactly
//! where chosen arcs lead. Levels are numbers inside strong components alone. It stands on
//! `clause_formulas`, and on `reachability` for paths. It must not know what numbers and arcs are.
#![tactic(auto)]

mod arc_rules;
mod arcs;
mod asserted;
mod composed;
mod encoded;
mod groups;
mod input;
mod node_rules;
mod path_rules;
mod plan;
mod theorems;
mod ways;
mod widths;

pub use encoded::levels;
pub use input::Arc;
pub use theorems::{level_laws, worked_levels};
