//! Which packages of a graph to build when: waves, each of which needs only those before it.
//!
//! What it is: `waves`, which makes the `Plan` of a graph without a cycle.
//! What it promises: the waves are the earliest schedule, so no schedule has fewer; a chain of packages, one of each
//! wave, shows that.
//! What it stands on: `graph_core` for graphs.
//! What it must not know: recipes, settings, and which graphs are valid.
#![tactic(auto)]

mod by_wave;
mod chain;
mod children;
mod numbers;
mod plan;
mod theorems;

pub use plan::{Plan, waves};
pub use theorems::plan_laws;
