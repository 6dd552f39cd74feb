//! Rows of clauses and of sums by digits.
ghost use Rattle.clause_store.specs.Lits.{AllBelow};

use crate::answer::Answer;
use crate::input::{lits_of, terms_of};
use clause_store::{Clause, ClauseList, Label, Lit};
use criteria_totals::sum_by_digits;
use std::alloc::{AllocError, Global};

/// The commands `clause` of literals, and `digits` of terms such as `3*-1`.
pub fn ask(
    alloc: Global,
    clauses: &mut ClauseList,
    command: &str,
    words: &[&str],
) -> Result<Option<Answer>, AllocError> {
    match command {
        "clause" => match lits_of(alloc, words, clauses.vars())? {
            Some(lits) => of_clause(alloc, clauses, lits.as_slice()),
            None => Ok(None),
        },
        "digits" => match terms_of(alloc, words, clauses.vars())? {
            Some(terms) => {
                let bits = sum_by_digits(alloc, clauses, terms.as_slice())?;
                Ok(Some(Answer::Lits(bits)))
            }
            None => Ok(None),
        },
        _ => Ok(None),
    }
}

// The clause of the literals: the answer is whether there is one.
fn of_clause(
    alloc: Global,
    clauses: &mut ClauseList,
    lits: &[Lit],
) -> Result<Option<Answer>, AllocError>
    requires { AllBelow clauses.old.vars lits.now }
{
    match Clause::new(alloc, lits)? {
        Some(clause) => {
            clauses.add(clause, Label::Structure)?;
            Ok(Some(Answer::Value(true)))
        }
        None => Ok(Some(Answer::Value(false))),
    }
}
