//! The demands that a refutation rests on.
ghost use Rattle.std.specs.Prelude.{◌≡◌, ◌+◌, ◌^◌, ◌≤◌, IfErr, IfOk, length};
ghost use Rattle.explain_failure.specs.Uses.{AreReasons, IsRefuted, IsRising};
ghost use Rattle.explain_failure.specs.Marks.{demand_of, AreDemands};

use crate::marks::marks_of;
use crate::rising::put;
use clause_store::{ClauseList, Label};
use plain_data::List;
use proof_log::Log;
use std::alloc::{AllocError, Global};

/// The demand that labels a clause, if the clause is marked.
fn demand_of(clauses: &ClauseList, marks: &[bool], id: u64) -> Option<u64>
    ensures { result ≡ demand_of clauses.now.entries marks.now id }
{
    if marks.get(id as usize).copied() != Some(true) {
        return None;
    }
    match clauses.label(id) {
        Some(Label::Demand(demand)) => Some(demand),
        _ => None,
    }
}

/// The demands that label marked clauses.
fn demands_of(alloc: Global, clauses: &ClauseList, marks: &[bool]) -> Result<Vec<u64>, AllocError>
    ensures rising { IfOk result (λ ds. IsRising ds.items) }
    ensures exact { IfOk result (λ ds.
        AreDemands clauses.now.entries marks.now (length clauses.now.entries) ds.items) }
{
    let mut demands = Vec::new(alloc);
    for place in 0..clauses.len() {
        match demand_of(clauses, marks, place + 1) {
            Some(demand) => put(&mut demands, demand)?,
            None => {}
        }
    }
    Ok(demands)
}

/// How many marks there are to be: one for each clause, and for id 0; beyond 64 bits want of
/// memory.
fn size_for(clauses: u64, lines: usize) -> Result<usize, AllocError>
    ensures ok { IfOk result (λ size. size ≡ clauses + lines + 1) }
    ensures cause { IfErr result (λ _. 2 ^ 64 ≤ clauses + lines + 1) }
{
    let all = clauses as usize;
    match all.checked_add(lines).and_then(|all| all.checked_add(1)) {
        Some(size) => Ok(size),
        None => Err(AllocError),
    }
}

/// Exactly the demands that label an input clause which the refutation uses, each once and rising.
/// The log is a refutation of the clauses, whatever bits it speaks of. It uses the clauses that its
/// last chain names, and those that the chain of a learnt clause names which it uses.
pub fn reasons(alloc: Global, clauses: &ClauseList, log: &Log) -> Result<List<u64>, AllocError>
    requires { IsRefuted clauses.now log.now }
    ensures { IfOk result (AreReasons clauses.now.entries log.now) }
{
    let lines = log.lines();
    let size = size_for(clauses.len(), lines.len())?;
    let marks = marks_of(alloc, size, lines)?;
    let demands = demands_of(alloc, clauses, marks.as_slice())?;
    Ok(List::from_vec(demands))
}
