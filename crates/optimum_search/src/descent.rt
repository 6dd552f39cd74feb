//! The descent: any model first, and then one bit after another.

ghost use Rattle.std.specs.Prelude.{IfOk, OnOk};
ghost use Rattle.clause_store.specs.Lits.{AllBelow};
ghost use Rattle.clause_store.specs.Clauses.{clauses_of};
ghost use Rattle.proof_log.specs.Known.{AllClauses};
ghost use Rattle.optimum_search.specs.Finding.{IsFound};

use crate::fix_bits::fix_next_bit;
use crate::{Found, Number, Progress, Stage, Untold};
use clause_solver::{Outcome, Solver};
use clause_store::{ClauseList, Lit};
use plain_data::List;
use proof_log::Line;
use std::alloc::{AllocError, Global};

/// A model with the least bits, the first bit counting most.
pub fn search(
    alloc: Global,
    clauses: &ClauseList,
    bits: &[Lit],
    budget: u64,
) -> Result<Found, AllocError>
    requires in_range { AllBelow clauses.now.vars bits.now }
    ensures found { IfOk result (IsFound clauses.now bits.now budget) }
    ensures in_order { OnOk result (AllClauses (clauses_of clauses.now.entries)) }
{
    search_by_numbers(alloc, clauses, bits, &[], budget, &mut Untold)
}

/// What a search is at whose bits below a place are settled.
fn stage_at(numbers: &[Number], at: usize, learnt: u64) -> Stage {
    let settled = numbers.iter().filter(|number| number.end <= at).count();
    Stage::Settling {
        settled: settled as u64,
        numbers: numbers.len() as u64,
        learnt,
    }
}

/// The same where the bits spell numbers, one behind another.
///
/// While a number's bits are settled, those that are left are decided first, at 0, and its parts
/// soon, at false. What is found has the same bits, whatever stands in `numbers`; how long it takes
/// may differ. Before each bit `progress` is told how far it is.
pub fn search_by_numbers<P: Progress>(
    alloc: Global,
    clauses: &ClauseList,
    bits: &[Lit],
    numbers: &[Number],
    budget: u64,
    progress: &mut P,
) -> Result<Found, AllocError>
    requires in_range { AllBelow clauses.now.vars bits.now }
    ensures found { IfOk result (IsFound clauses.now bits.now budget) }
    ensures in_order { OnOk result (AllClauses (clauses_of clauses.now.entries)) }
{
    let mut solver = Solver::new(alloc, clauses, bits.len() as u64)?;
    match solver.solve(None, budget)? {
        Outcome::Model => {}
        Outcome::Refuted => {
            return Ok(Found::Refuted {
                log: solver.into_log(),
            });
        }
        Outcome::Spent => {
            return Ok(Found::Spent {
                log: solver.into_log(),
            });
        }
    }
    for at in 0..bits.len() {
        progress.tell(stage_at(numbers, at, solver.learnt()));
        if !fix_next_bit(alloc, &mut solver, bits, numbers, at, budget)? {
            return Ok(Found::Spent {
                log: solver.into_log(),
            });
        }
    }
    let model = List::from_vec(Vec::from_slice(alloc, solver.model())?);
    let mut log = solver.into_log();
    log.push(Line::End)?;
    Ok(Found::Optimal { model, log })
}
