//! A search for a model, with a log of what was learnt.
//!
//! It promises: a model meets all clauses, the settled bits and the assumption; a refutation ends a
//! sound log that derives it; a spent budget ends a log with one learnt clause more, all distinct
//! and useful. It stands on the contract of `clause_watch` and on `proof_log`. It must not know
//! which bits there are to come, nor what a model is for.
//!
//! `analysis` and `seen` learn from a false clause, `restarts` restarts by Luby's sequence,
//! `choice` decides by `variable_heap`, `search` goes round, and `solver` keeps what callers see.
//! None of them knows how the watch finds clauses, and no proof rests on which variable is decided.
#![tactic(auto)]

mod analysis;
mod anew;
mod choice;
mod outcome;
mod restarts;
mod search;
mod seen;
mod solver;
mod variable_heap;

pub use outcome::Outcome;
pub use solver::Solver;
