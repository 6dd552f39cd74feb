//! `solve BUDGET VARS BITS.. 0 CLAUSES..`: the calls of a solver, one by one.
ghost use Rattle.std.specs.Prelude.{◌≡◌, ◌<◌, ◌≤◌, length};
ghost use Rattle.clause_store.specs.Lits.{var_of};
ghost use Rattle.clause_solver.specs.Solvers.{start_of};
ghost use Rattle.proof_log.specs.Lines.{IsOpen, learnt_in};

use crate::input::{are_below, clauses_of, lits_of, number_of};
use crate::output::{push_line, push_log, push_model};
use clause_solver::{Outcome, Solver};
use clause_store::{ClauseList, Lit};
use std::alloc::{AllocError, Global};

/// What `solve` answers without assumption; then, after a model, for the first bit assumed to be 0;
/// and after a model again `fix` of that bit. Each with how many clauses were learnt, and the log
/// at the end.
pub fn answer(
    alloc: Global,
    budget: &str,
    vars: &str,
    words: &[&str],
) -> Result<Vec<u8>, AllocError> {
    let (bits, rest) = lits_of(alloc, number_of(vars), words)?;
    let clauses = clauses_of(alloc, number_of(vars), rest)?;
    let mut solver = Solver::new(alloc, &clauses, bits.len() as u64)?;
    let budget = number_of(budget);
    let answered = answer_over(alloc, &mut solver, &clauses, bits.as_slice(), budget);
    drop(solver);
    answered
}

fn answer_over(
    alloc: Global,
    solver: &mut Solver,
    clauses: &ClauseList,
    bits: &[Lit],
    budget: u64,
) -> Result<Vec<u8>, AllocError>
    requires { solver.old ≡ start_of clauses.now (length bits.now) }
{
    let mut text = Vec::new(alloc);
    let first = solver.solve(None, budget)?;
    say(alloc, &mut text, solver, first)?;
    if first == Outcome::Model && !bits.is_empty() && bits[0].var.0 < clauses.vars() {
        assume(alloc, &mut text, solver, bits[0], budget)?;
    }
    push_log(alloc, &mut text, solver.log().lines())?;
    Ok(text)
}

/// What `solve` answers for the first bit assumed to be 0, and after a model `fix` of that bit.
fn assume(
    alloc: Global,
    text: &mut Vec<u8>,
    solver: &mut Solver,
    lit: Lit,
    budget: u64,
) -> Result<(), AllocError>
    requires open_log { IsOpen solver.old.lines }
    requires in_budget { learnt_in solver.old.lines ≤ budget }
    requires none { 0 ≡ length solver.old.given }
    requires in_range { var_of lit < solver.old.vars }
{
    let second = solver.solve(Some((0, lit)), budget)?;
    say(alloc, text, solver, second)?;
    match second {
        Outcome::Model => solver.fix(0, lit),
        Outcome::Refuted | Outcome::Spent => Ok(()),
    }
}

/// The answer, how many clauses were learnt, and the model.
fn say(
    alloc: Global,
    text: &mut Vec<u8>,
    solver: &Solver,
    outcome: Outcome,
) -> Result<(), AllocError> {
    let word = match outcome {
        Outcome::Model => "model",
        Outcome::Refuted => "refuted",
        Outcome::Spent => "spent",
    };
    let learnt = format!(in alloc; "{word} {}", solver.learnt())?;
    text.extend_from_slice(learnt.as_bytes())?;
    push_model(alloc, text, solver.model())
}
