//! The verdict on a graph.
//!
//! What it is: `judge`, which names the first broken rule of a valid graph, `judge_for`, which
//! does so where only some roots, directives and requirements of the settings are asked, and
//! `name_virtuals`, which names the virtuals on the edges of a graph that was read without them.
//! What it promises: they answer what `graph_rules` computes as `verdict` and `verdict_for`; so
//! Valid exactly where no rule is broken, and else the first broken rule, there the least node by
//! bytes, and there the least number.
//! What it stands on: `rule_checks` for each rule at a node.
//! What it must not know: costs, clauses, and how a graph is found.
#![tactic(auto)]

mod asked;
mod judging;
mod names;
mod nodes;
mod others;
mod places;
mod rows;
mod verdict;

pub use names::name_virtuals;
pub use verdict::{judge, judge_for};
