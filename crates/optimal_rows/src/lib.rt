//! Graphs that are best, and graphs that are not, by computation.
//!
//! What it is: a law over a small problem, whose graphs are judged and weighed by the definitions.
//! What it promises: no code. Where the words of an optimal graph, or of a problem without a graph,
//! came to hold of everything or of nothing, it would be refused.
//! What it stands on: `graph_rules` for the definitions.
//! What it must not know: how a graph is found.
#![tactic(auto)]

mod theorems;

pub use theorems::optimal_rows;
