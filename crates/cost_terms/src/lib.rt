//! What a graph costs, as weighted formulas over a table of literals, and their sums as bits.
//!
//! What it is: terms of one choice (`spread` over binary digits, `in_part` for the nodes to build
//! or the others, `differ_terms` in `specs/` for the ends of edges), the terms of the 31 numbers
//! (`cost_terms` in `specs/`), and `define_totals`.
//! What it promises: the sums of the weights of true formulas are the cost vector of the graph that
//! an assignment spells; in every model the bits of `define_totals` compare, from the first on, as
//! these sums, and spell them.
//! What it stands on: `graph_rules` for what graphs cost, `cost_vector` for what weighs how much,
//! `literal_table` for choices, `criteria_totals` for bits.
//! What it must not know: which graphs are valid.
#![tactic(auto)]

mod attributes;
mod choice_theorems;
mod cost_theorems;
mod digits;
mod parts;
mod totals;
mod weighted;

pub use attributes::{compiler_terms, deprecated_terms, os_terms, target_terms, version_terms};
pub use choice_theorems::{differ_laws, part_laws, spread_laws};
pub use cost_theorems::{cost_laws, range_laws};
pub use digits::spread;
pub use parts::in_part;
pub use totals::define_totals;
pub use weighted::Weighted;
