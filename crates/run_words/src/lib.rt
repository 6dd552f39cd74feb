//! The words of a command line.
//!
//! What it is: `read_command`, the command that the words are. The verbs over files are one table,
//! `verb_of` of `verbs.rt`.
//! What it promises: exactly the command, or that the words are none.
//! What it stands on: `run_answers` for why a run stops.
//! What it must not know: files, and what stands in the text of the specs.
#![tactic(auto)]

mod command;
mod number;
mod read;
mod verbs;

pub use command::{Command, Work, is_dash};
pub use read::read_command;
// What crates above answer with.
pub use run_answers::{ReadStop, Refusal, Status, Stop, WriteStop};
