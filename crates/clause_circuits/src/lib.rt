//! Gates planned one after the other, and turned into clauses once: literals that are defined by
//! others.
//!
//! It promises: a `Plan` is a pure list of gates over numbered variables, and the clauses of a
//! whole plan define its variables: every assignment of the old variables extends in exactly one
//! way, and each new literal has its gate's value; `define_any` and `define_cover` do so for one
//! literal. After want of memory every assignment of the old variables still extends. It stands on
//! `clause_store`, and gives the words in which all layers above say how a list of clauses grew,
//! what a balanced tree of weights is, and which number bits spell. It must not know what literals
//! are for.
#![tactic(auto)]

mod define;
mod gate;
mod plan;
mod rules;
mod sizes;

pub use define::{define_any, define_cover, define_plan};
pub use gate::{Gate, Lits};
pub use plan::Plan;
pub use sizes::{size, total};
