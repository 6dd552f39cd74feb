//! What a run writes: the certificate, the lock file and the lines of an answer.
//!
//! What it is: `write_answer`, which finds the best graph of a problem and writes the answer;
//! `write_valid`, the text of the lock file of a valid graph.
//! What it promises: the files and the lines are those of an answer of the problem; what stands
//! after a fault. A valid graph can be written, since the rules demand it.
//! What it stands on: `run_task` for what is asked and for the answer, `graph_rules` for validity,
//! `lock_writer` for the lock file, `root_graphs` for many roots by themselves, `spec_find` for
//! installed packages that are looked for, `install_plan` for the order of a build.
//! What it must not know: words, and how the problem was read.
#![tactic(auto)]

mod answer;
mod comparison;
mod each_found;
mod each_put;
mod each_text;
mod find;
mod found;
mod least_said;
mod least_text;
mod lock;
mod order;
mod packages;
mod put;
mod report;
mod said;
mod theorems;
mod told;

pub use answer::{Outcome, write_answer};
pub use lock::write_valid;
// What crates above answer with, and the log that they keep.
pub use proof_log::Log;
pub use report::worked_texts;
pub use run_task::{
    Command, Progress, ReadStop, Refusal, Stage, Status, Stop, Task, Untold, Work, WriteStop,
    read_command, read_task, task_laws,
};
pub use theorems::budget_laws;
