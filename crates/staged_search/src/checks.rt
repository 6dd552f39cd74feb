//! What a proposal is looked at for.
ghost use Rattle.std.specs.Prelude.{◌≡◌, ◌≤◌, true, IfOk, OnOk};
ghost use Rattle.clause_store.specs.Lits.{IsClause, AllBelow, lit_true, clause_true};
ghost use Rattle.clause_store.specs.Clauses.{clauses_of};
ghost use Rattle.proof_log.specs.Known.{AllClauses};
ghost use Rattle.proof_log.specs.Lines.{AllLines, OfLearnt, learnt_in};
ghost use Rattle.proof_log.specs.Certificates.{AreOver, IsCertificate, bits_at};
ghost use Rattle.log_checker.specs.Steps.{run_lines};
ghost use Rattle.clause_solver.specs.Models.{values_in};
ghost use Rattle.optimum_search.specs.Finding.{MeetsAll};

use clause_store::{ClauseList, Lit};
use log_checker::{Checker, Step};
use proof_log::Line;
use std::alloc::{AllocError, Global};

/// Whether a literal is true in a model.
fn is_true(model: &[bool], lit: Lit) -> bool
    ensures { result ≡ lit_true (values_in model.now) lit }
{
    let value = model.get(lit.var.0 as usize).copied().unwrap_or(false);
    if lit.positive { value } else { !value }
}

/// Whether some literal is.
fn is_met(model: &[bool], lits: &[Lit]) -> bool
    ensures { result ≡ clause_true (values_in model.now) lits.now }
{
    for lit in lits {
        if is_true(model, *lit) {
            return true;
        }
    }
    false
}

/// Whether a model meets all clauses.
pub fn meets_all(alloc: Global, clauses: &ClauseList, model: &[bool]) -> Result<bool, AllocError>
    ensures { IfOk result (λ yes. yes ≡ true → MeetsAll (values_in model.now) clauses.now) }
{
    for place in 0..clauses.len() {
        let Some(clause) = clauses.get(alloc, place + 1)? else {
            return Ok(false);
        };
        if !is_met(model, clause.lits()) {
            return Ok(false);
        }
    }
    Ok(true)
}

/// The bits that a model has.
pub fn bits_of(alloc: Global, model: &[bool], bits: &[Lit]) -> Result<Vec<bool>, AllocError>
    ensures { IfOk result (λ values. values.items ≡ bits_at (values_in model.now) bits.now) }
{
    let mut values = Vec::new(alloc);
    for lit in bits {
        values.push(is_true(model, *lit))?;
    }
    Ok(values)
}

/// Whether each literal is over so many variables.
fn are_below(lits: &[Lit], vars: u64) -> bool
    ensures { result ≡ true → AllBelow vars lits.now }
{
    for lit in lits {
        if lit.var.0 >= vars {
            return false;
        }
    }
    true
}

/// Whether what a line learns is.
fn is_over(vars: u64, line: &Line) -> bool
    ensures { result ≡ true → OfLearnt (AllBelow vars) line.now }
{
    match line {
        Line::Learnt { clause, .. } => are_below(clause.lits(), vars),
        _ => true,
    }
}

/// Whether what lines learn is over so many variables.
pub fn are_over(vars: u64, lines: &[Line]) -> bool
    ensures { result ≡ true → AreOver vars lines.now }
{
    for line in lines {
        if !is_over(vars, line) {
            return false;
        }
    }
    true
}

/// Whether lines learn no more than so many clauses.
pub fn are_within(budget: u64, lines: &[Line]) -> bool
    ensures { result ≡ true → learnt_in lines.now ≤ budget }
{
    let mut left = budget;
    for line in lines {
        if let Line::Learnt { .. } = line {
            if left == 0 {
                return false;
            }
            left -= 1;
        }
    }
    true
}

/// A line's clause is in order of variables, as every clause is.
fn is_typed(line: &Line)
    ensures { OfLearnt IsClause line.now }
{
    if let Line::Learnt { clause, .. } = line {
        let _ = clause.lits();
    }
}

fn are_typed(lines: &[Line])
    ensures { AllLines (λ l. OfLearnt IsClause l) lines.now }
{
    for line in lines {
        is_typed(line);
    }
}

/// A checker takes lines in turn.
fn feed(checker: &mut Checker, lines: &[Line]) -> Result<(), AllocError>
    ensures { OnOk result (checker.new ≡ run_lines checker.old lines.now) }
{
    for line in lines {
        checker.step(line)?;
    }
    Ok(())
}

/// Whether lines are a certificate of these values.
pub fn are_certificate(
    alloc: Global,
    clauses: &ClauseList,
    bits: &[Lit],
    values: &[bool],
    lines: &[Line],
) -> Result<bool, AllocError>
    ensures shown { IfOk result (λ yes. yes ≡ true
        → IsCertificate clauses.now.vars (clauses_of clauses.now.entries) bits.now values.now
        lines.now) }
    ensures in_order { OnOk result (AllClauses (clauses_of clauses.now.entries)) }
{
    are_typed(lines);
    let mut checker = Checker::new(alloc, clauses, bits, Some(values))?;
    feed(&mut checker, lines)?;
    match checker.finish() {
        Step::Accepted => Ok(true),
        Step::Refused { .. } => Ok(false),
    }
}
