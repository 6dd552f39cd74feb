//! Derivations of clauses, logs of what a search learnt, and the text of a log both ways.
//!
//! It promises: what a whole log shows (the least bits, that no model exists, that a budget was
//! spent) as definitions over lines alone, with their laws as theorems; each line that may be
//! written has one text, and a text is read as the line whose text it is, or refused; the lines
//! that a `Reader` gives depend on the bytes and not on how they were cut. It stands on
//! `clause_store` and `plain_data`. It must not know how clauses are learnt or checked.
//! `docs/formats/proof_log.md` has the text of a log.
#![tactic(auto)]

mod draft;
mod fields;
mod line;
mod log;
mod log_theorems;
mod reader;
mod text;
mod text_theorems;

pub use line::Line;
pub use log::Log;
pub use log_theorems::{derivation_laws, log_laws, worked_logs};
pub use reader::{LogFault, Reader};
pub use text::{log_text, may_write, read_line, write_line};
pub use text_theorems::{reading_laws, text_laws, worked_lines, written_laws};
