//! The check of a whole log, in blocks.
ghost use Rattle.std.specs.Prelude.{◌≡◌, ◌↔◌, ℕ, Bool, Some, IfOk, OnOk};
ghost use Rattle.std.specs.Option.{option_map};
ghost use Rattle.clause_store.specs.Lits.{IsClause};
ghost use Rattle.clause_store.specs.Clauses.{clauses_of};
ghost use Rattle.proof_log.specs.Known.{AllClauses};
ghost use Rattle.proof_log.specs.Lines.{AllLines, OfLearnt};
ghost use Rattle.proof_log.specs.Certificates.{bits_at, IsBelow, IsCertificate, IsRefutation};
ghost use Rattle.log_checker.specs.declared.step.Step.TheVariants.{Accepted};
ghost use Rattle.log_checker.specs.Steps.{Going, begun, run_lines, finish_on};
ghost use Rattle.log_checker.specs.Kinds.{IsLogOf};
ghost use Rattle.certified.specs.Encodings.{MeetsAll};

use clause_store::{ClauseList, Lit};
use log_checker::{Checker, OpenGate, Step};
use proof_log::Line;
use std::alloc::{AllocError, Global};
use std::thread::Threads;

/// How many lines are checked at once.
const BLOCK: usize = 1024;

/// A line's clause is in order of variables, as every clause is.
fn is_typed(line: &Line)
    ensures { OfLearnt IsClause line.now }
{
    if let Line::Learnt { clause, .. } = line {
        let _ = clause.lits();
    }
}

fn are_typed(lines: &[Line])
    ensures { AllLines (λ l. OfLearnt IsClause l) lines.now }
{
    for line in lines {
        is_typed(line);
    }
}

/// Takes all lines, block after block.
pub(crate) fn feed<R: Threads + Sync>(
    rt: &R,
    checker: &mut Checker,
    lines: &[Line],
) -> Result<(), AllocError>
    ensures { OnOk result (checker.new ≡ run_lines checker.old lines.now) }
{
    let mut rest = lines;
    while !rest.is_empty() {
        let (block, later) = rest.split_at(rest.len().min(BLOCK));
        checker.step_block(rt, &OpenGate, block)?;
        rest = later;
    }
    Ok(())
}

/// The answer of a checker at the end of the lines.
fn check<R: Threads + Sync>(
    rt: &R,
    alloc: Global,
    clauses: &ClauseList,
    bits: &[Lit],
    values: Option<&[bool]>,
    lines: &[Line],
) -> Result<Step, AllocError>
    ensures steps { IfOk result (λ step. step ≡ finish_on (run_lines (Going (begun clauses.now bits.now
        (option_map (λ v. v.now) values.entry))) lines.now)) }
    ensures exact { IfOk result (λ step. (step ≡ Accepted)
        ↔ IsLogOf clauses.now.vars (clauses_of clauses.now.entries) bits.now
        (option_map (λ v. v.now) values.entry) lines.now) }
    ensures in_order { OnOk result (AllClauses (clauses_of clauses.now.entries)) }
{
    are_typed(lines);
    let mut checker = Checker::new(alloc, clauses, bits, values)?;
    feed(rt, &mut checker, lines)?;
    Ok(checker.finish())
}

/// Whether the lines are a certificate that no assignment that meets the clauses has smaller bits
/// than these values; they may come from anywhere. Where they are not, which line is refused, and
/// why.
pub fn check_certificate<R: Threads + Sync>(
    rt: &R,
    alloc: Global,
    clauses: &ClauseList,
    bits: &[Lit],
    values: &[bool],
    lines: &[Line],
) -> Result<Step, AllocError>
    ensures steps { IfOk result (λ step. step ≡ finish_on (run_lines (Going (begun clauses.now bits.now
        (Some values.now))) lines.now)) }
    ensures exact { IfOk result (λ step. (step ≡ Accepted)
        ↔ IsCertificate clauses.now.vars (clauses_of clauses.now.entries) bits.now values.now
        lines.now) }
    ensures least { IfOk result (λ step. step ≡ Accepted → (v : ℕ → Bool)
        → MeetsAll v clauses.now → IsBelow (bits_at v bits.now) values.now → ⊥) }
{
    check(rt, alloc, clauses, bits, Some(values), lines)
}

/// Whether the lines refute the clauses; they may come from anywhere.
pub fn check_refutation<R: Threads + Sync>(
    rt: &R,
    alloc: Global,
    clauses: &ClauseList,
    bits: &[Lit],
    lines: &[Line],
) -> Result<Step, AllocError>
    ensures exact { IfOk result (λ step. (step ≡ Accepted)
        ↔ IsRefutation clauses.now.vars (clauses_of clauses.now.entries) bits.now lines.now) }
    ensures refuted { IfOk result (λ step. step ≡ Accepted → (v : ℕ → Bool)
        → MeetsAll v clauses.now → ⊥) }
{
    check(rt, alloc, clauses, bits, None, lines)
}
