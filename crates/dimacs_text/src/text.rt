//! The whole text.

ghost use Rattle.std.specs.Prelude.{◌≡◌, IfOk};
ghost use Rattle.dimacs_text.specs.Texts as texts;

use crate::choices::write_table;
use crate::clauses::{write_clauses, write_size};
use crate::labels::write_labels;
use crate::sums::write_sums;
use clause_store::ClauseList;
use criteria_totals::Bits;
use literal_table::LiteralTable;
use problem::Problem;
use std::alloc::{AllocError, Global};

/// Clauses as DIMACS: comments first, then how many variables and clauses there are, and then the
/// clauses. Variables count from 1.
///
/// The comments are a line for each choice of the table, for each clause that is there for a demand
/// of the problem, for each number with its bits, and for each bit. An error is want of memory.
#[tactic(auto, unfolding(crate::specs::Texts::dimacs_text))]
pub fn dimacs_text(
    alloc: Global,
    problem: &Problem,
    clauses: &ClauseList,
    bits: &Bits,
    table: &LiteralTable,
) -> Result<Vec<u8>, AllocError>
    ensures { IfOk result (λ text. text.items
        ≡ texts.dimacs_text problem.now clauses.now bits.now table.now) }
{
    let mut text = Vec::new(alloc);
    write_table(alloc, table, &mut text)?;
    write_labels(alloc, problem, clauses, &mut text)?;
    write_sums(alloc, bits, &mut text)?;
    write_size(alloc, clauses, &mut text)?;
    write_clauses(alloc, clauses, &mut text)?;
    Ok(text)
}
