//! What the headline comes to.
//!
//! What it is: laws that read the clauses of `concretizer::run`: what an answer of a command says
//! of the files, in the words of graphs that are valid and of what they cost.
//! What it promises: no code. Who makes a definition under the headline weaker finds it here.
//! What it stands on: `concretizer` for the clauses, `graph_rules` for what is valid and what it
//! costs, `run_input` for what is due.
//! What it must not know: how a graph is found, and what a log is.
#![tactic(auto)]

mod faults;
mod theorems;

pub use faults::fault_laws;
pub use theorems::headline_laws;
