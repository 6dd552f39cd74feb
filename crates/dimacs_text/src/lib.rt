//! Encodings as DIMACS: the text of clauses that any solver reads, with comments that say what they
//! mean.
//!
//! What it is: `dimacs_text`, the text of clauses, their table of literals and their bits; `run` of
//! the words `REPO SETTINGS DATABASE SPEC..`, which says that of what a run reads; and
//! `dimacs_machine`, the same over the machine.
//! What it promises: exactly the text that the definition gives, of the one encoding of the problem
//! that was read; refusals are those of a run.
//! What it stands on: `clause_store`, `literal_table` and `criteria_totals` for what is written,
//! `run_input` for what is read, `problem_encoding` for its clauses, `run_answers` for the lines of
//! demands.
//! What it must not know: how a problem becomes clauses.
#![tactic(auto)]

mod attempt;
mod choices;
mod clauses;
mod labels;
mod machine;
mod meanings;
mod signs;
mod sums;
mod text;
mod top;

pub use clauses::rules_line;
pub use machine::dimacs_machine;
pub use run_input::Status;
pub use text::dimacs_text;
pub use top::run;
