//! What accepted logs show of clauses, and of whatever they encode.
//!
//! What it is: the check of whole logs, as lines in memory and as texts in pieces, whoever made
//! them.
//! What it promises: where a certificate is accepted, no assignment that meets the clauses has
//! smaller bits; where a refutation is, none meets them. So in a sound and complete encoding the
//! thing with these bits is the least, or there is none. The answer to a text depends on its bytes,
//! and not on how they come.
//! What it stands on: the checker of lines (`log_checker`) and the reader of texts (`proof_log`).
//! What it must not know: what is encoded, and where bytes come from.
#![tactic(auto)]

mod check;
mod text;
mod theorems;
mod whole_text;

pub use check::{check_certificate, check_refutation};
pub use text::{TextAnswer, TextChecker};
pub use theorems::{clause_laws, encoding_laws, text_laws};
pub use whole_text::check_text;
