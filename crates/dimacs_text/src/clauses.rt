//! The clauses.

ghost use Rattle.std.specs.Prelude.{◌≡◌, ◌++◌, IfOk, OnOk};
ghost use Rattle.clause_store.specs.Clauses.{at_id};
ghost use Rattle.dimacs_text.specs.Clauses as lines;

use crate::signs::{write_lits, write_number};
use clause_store::ClauseList;
use std::alloc::{AllocError, Global};

// Each of these appends a text to `out`, or some of it after an error.

/// How many variables and clauses there are.
#[tactic(auto, unfolding(crate::specs::Clauses::size_line))]
pub(crate) fn write_size(
    alloc: Global,
    clauses: &ClauseList,
    out: &mut Vec<u8>,
) -> Result<(), AllocError>
    ensures { OnOk result (out.new.items ≡ out.old.items ++ lines.size_line clauses.now) }
{
    out.extend_from_slice(b"p cnf ")?;
    write_number(alloc, clauses.vars(), out)?;
    out.extend_from_slice(b" ")?;
    write_number(alloc, clauses.len(), out)?;
    out.extend_from_slice(b"\n")
}

/// The comment that says how many variables and clauses the rules have: those in front of all
/// others, which a refutation is over.
#[tactic(auto, unfolding(crate::specs::Clauses::rules_line))]
pub fn rules_line(alloc: Global, rules: &ClauseList) -> Result<Vec<u8>, AllocError>
    ensures { IfOk result (λ line. line.items ≡ lines.rules_line rules.now) }
{
    let mut line = Vec::new(alloc);
    line.extend_from_slice(b"c rules ")?;
    write_number(alloc, rules.vars(), &mut line)?;
    line.extend_from_slice(b" ")?;
    write_number(alloc, rules.len(), &mut line)?;
    line.extend_from_slice(b"\n")?;
    Ok(line)
}

/// The clause with this id.
fn write_clause(
    alloc: Global,
    clauses: &ClauseList,
    id: u64,
    out: &mut Vec<u8>,
) -> Result<(), AllocError>
    ensures { OnOk result (out.new.items ≡ out.old.items
        ++ lines.line_at (at_id clauses.now.entries id)) }
{
    match clauses.entry(alloc, id)? {
        Some(entry) => write_lits(alloc, entry.clause.lits(), out),
        None => Ok(()),
    }
}

/// The clauses, in the order of their ids.
pub(crate) fn write_clauses(
    alloc: Global,
    clauses: &ClauseList,
    out: &mut Vec<u8>,
) -> Result<(), AllocError>
    ensures { OnOk result (out.new.items ≡ out.old.items
        ++ lines.clause_lines clauses.now.entries) }
{
    for place in 0..clauses.len() {
        write_clause(alloc, clauses, place + 1, out)?;
    }
    Ok(())
}
