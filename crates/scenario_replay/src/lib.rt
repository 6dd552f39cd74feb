//! Scenarios replayed: each is run over devices in memory, and what differs is said.
//!
//! What it is: `replay` over the files and folders that words name, behind any desk and sink.
//! It promises: what comes of each file is said, and the counts behind that; a file is the same or
//! differs only where it is a scenario; the answer is `Replayed::Same` exactly where one was the
//! same and no other was not.
//! It stands on the reader of scenarios, the top call and the devices. It must not know how a graph
//! is chosen.
#![tactic(auto)]

mod check;
mod compare;
mod comparison;
mod differences;
mod every_call;
mod faulty;
mod find;
mod machine;
mod one_run;
mod shown;
mod status_name;
mod top;
mod watched_desk;

pub use comparison::Replayed;
pub use machine::replay_machine;
pub use top::replay;
