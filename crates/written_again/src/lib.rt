//! What is written of a valid graph, and read again.
//!
//! What it is: laws: a file that is put changes no other, and no folder but its own; the text of
//! the lock file of a valid graph is read as just that graph, with the roots that were asked for.
//! They are what joins a run that writes its files to one that reads them.
//! What it promises: no code.
//! What it stands on: `outside_desk` for files, `lock_laws` and `lockfile` for lock files,
//! `graph_rules` for what is valid.
//! What it must not know: how a graph is found, and what a log shows.
#![tactic(auto)]

mod theorems;

pub use theorems::{lock_file_laws, put_laws};
