//! The checks of the rules of a valid graph, at one node, one directive, one provider or one root.
//!
//! What it is: `Checks`, with a call `keeps_..` for each definition of that name of `graph_rules`;
//! `judge` runs them.
//! What it promises: each answers what its definition computes, and errs for want of memory alone.
//! What it stands on: `graph_rules` for the definitions, `problem` for what is looked up,
//! `condition_rules` for conditions, `keyed_lists` for rows by the names that they ask for.
//! What it must not know: the order of the rules, which place is named, costs.
#![tactic(auto)]

mod asked_rows;
mod built;
mod checks;
mod directives;
mod edges;
mod external;
mod kept;
mod same;
mod variants;
mod whole;

pub use checks::Checks;
pub use external::external_node;
