//! The formulas of a problem over a table.
//!
//! What it is: `ProblemFormulas`, which has `RuleFormulas` of `graph_encoding`;
//! `condition_formulas`, the formula of each condition, package by package, in the order of the
//! lists of a recipe; `targets_of`, the names to which directives and requested specs ask for
//! paths.
//! What it promises: the formulas are those that `valid_models` says are right; the targets are
//! just the names that it asks for, each once; each call errs for want of memory alone.
//! What it stands on: the builders of `node_formulas` and `rule_formulas`, and `graph_decoding` for
//! the structure.
//! What it must not know: clauses.
#![tactic(auto)]

mod formulas;
mod known;
mod listed;
mod rows;
mod rules;
mod targets;

pub use formulas::ProblemFormulas;
pub use graph_encoding::{ProblemClauses, encode};
pub use graph_levels::PathLits;
pub use listed::condition_formulas;
pub use rule_formulas::condition_formula;
pub use targets::targets_of;
