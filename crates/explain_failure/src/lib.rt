//! Which demands a refutation rests on.
//!
//! What it is: an explanation of a failure, read off a log alone. What it promises: exactly the
//! demands that label an input clause which the refutation uses, rising and each once (`reasons`);
//! and no assignment meets the clauses of the structure and of these demands. What it stands on:
//! lists of clauses with labels (`clause_store`) and the words of logs (`proof_log`). What it must
//! not know: what a demand asks, and how the log was found or checked.
#![tactic(auto)]

mod demands;
mod marks;
mod rising;
mod theorems;

pub use demands::reasons;
pub use theorems::{encoding_laws, reason_laws};
