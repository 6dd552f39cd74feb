//! Lists of clauses that are apart, beside each other.
//!
//! What it is: `solve_each`, the least bits of each of some lists of clauses; `check_parts`, the
//! check of a log for each of some.
//! What it promises: at each place what `search` promises of the part there, and of the first log
//! that is refused its place, line and reason; both whatever threads there are, and for any gate.
//! What it stands on: `optimum_search` for clauses, `certified` for a log, `log_checker` for who is
//! told where each half is.
//! What it must not know: what the clauses encode.
#![tactic(auto)]

mod checked;
mod halves;
mod solved;

pub use checked::{CheckedPart, check_parts};
pub use halves::{half_of, joined};
pub use solved::{Part, solve_each};
// Who is told where each half is.
pub use log_checker::{Gate, OpenGate};
