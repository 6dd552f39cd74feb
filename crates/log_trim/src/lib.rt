//! Logs without the learnt clauses that nothing rests on.
//!
//! What it is: a pass over a log alone. What it promises: exactly the lines that settle a bit or
//! end the log, and the learnt ones that a later line of these uses, with ids anew (`trim`); so a
//! certificate stays one of the same values, and a refutation one of the same clauses
//! (`trim_laws`), and what a search found is found (`trim_found`). A log of a spent budget stays as
//! it is, since each of its lines counts. What it stands on: the words of logs (`proof_log`), and
//! what a search answers (`optimum_search`). What it must not know: how the log is checked.
#![tactic(auto)]

mod anew;
mod found;
mod lines;
mod marks;
mod pass;
mod theorems;

pub use found::trim_found;
pub use pass::trim;
pub use theorems::trim_laws;
