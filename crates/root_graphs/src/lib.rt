//! The best graphs of problems that are apart, beside each other: whole problems, each in one
//! thread.
//!
//! What it is: `best_of_each`, the best graph of each of some problems.
//! What it promises: at each place what `best_graph` promises of the problem there, whatever
//! threads there are, and for any gate.
//! What it stands on: `best_graph` for a problem, `root_groups` for how a list is halved.
//! What it must not know: that the problems are roots of one repository, and what is read or said.
#![tactic(auto)]

mod each;
mod threads;

pub use each::best_of_each;
// Who is told where each half is.
pub use root_groups::{Gate, OpenGate};
