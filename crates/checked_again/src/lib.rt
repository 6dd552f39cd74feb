//! What a run of `concretize` wrote is accepted by `check` and by `refute`.
//!
//! What it is: laws that read the clauses of `concretizer::run`: over the files that Done of
//! `concretize` leaves, `check` with the same words poses that the certificate is right; over those
//! that Unsatisfiable leaves, `refute` does.
//! What it promises: no code.
//! What it stands on: `concretizer` for the clauses, `run_task` for what is read, `written_again`
//! for files and lock files.
//! What it must not know: how a graph is found, and how a log is checked.
#![tactic(auto)]

mod theorems;

pub use theorems::checked_laws;
