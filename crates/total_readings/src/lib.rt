//! That files and words are read as something: each file of settings, database and lock file is one
//! or has a fault, and words that are a command pose a task over any files, or are due a refusal.
//!
//! What it is: laws. Those of the readers, and of `run_task`, say that bytes, files and words are
//! one thing at most; these say that they are one.
//! What it promises: no code. So of no input the clauses of a run fall silent.
//! What it stands on: the readers, for what files mean; `spec_grammar` and `version_order`, of
//! whose texts the same is known; `run_input` and `run_task`, for what a run reads of them.
//! What it must not know: where the bytes come from.
#![tactic(auto)]

mod theorems;

pub use theorems::{database_total, lock_total, posed_total, settings_total};
