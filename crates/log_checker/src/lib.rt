//! A checker of logs that another search wrote: line by line, or in blocks on two threads.
//!
//! What it is: the separate yes. A log is accepted whoever made it, or refused at the first line
//! that breaks a rule, with the first rule that it breaks.
//! What it promises: a log is accepted to its end exactly where it is a certificate of the values,
//! or a refutation (`checker_laws`); a block is answered as its lines in turn, for any gate and any
//! threads.
//! What it stands on: lists of clauses (`clause_store`) and the words of logs (`proof_log`).
//! What it must not know: how clauses are learnt, what they encode, and how a log is spelled.
#![tactic(auto)]

mod block;
mod chain;
mod checker;
mod gate;
mod index;
mod inputs;
mod known;
mod lines;
mod position;
mod signs;
mod step;
mod store;
mod theorems;
mod uses;

pub use checker::Checker;
pub use gate::{Gate, OpenGate};
pub use step::{Step, Why};
pub use theorems::{checker_laws, worked_steps};
