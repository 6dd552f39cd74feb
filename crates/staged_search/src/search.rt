//! The search in stages, and the one from nothing where it falls short.
ghost use Rattle.std.specs.Prelude.{◌≡◌, true, IfOk, OnOk, IfSome};
ghost use Rattle.clause_store.specs.Lits.{AllBelow};
ghost use Rattle.clause_store.specs.Clauses.{clauses_of};
ghost use Rattle.proof_log.specs.Known.{AllClauses};
ghost use Rattle.optimum_search.specs.Finding.{IsFound};
ghost use Rattle.optimum_search.specs.declared.found.Found.TheVariants.{Optimal};

use crate::checks::{are_certificate, are_over, are_within, bits_of, meets_all};
use crate::parts::{Part, parts_of};
use crate::proposal::{Proposal, propose};
use clause_store::{ClauseList, Lit};
use optimum_search::{Found, Number, Progress, search_by_numbers};
use plain_data::List;
use proof_log::Line;
use std::alloc::{AllocError, Global};

/// Whether a model has the least bits, as lines show within a budget.
fn is_right(
    alloc: Global,
    clauses: &ClauseList,
    bits: &[Lit],
    budget: u64,
    model: &[bool],
    lines: &[Line],
) -> Result<bool, AllocError>
    ensures found { IfOk result (λ yes. yes ≡ true
        → IsFound clauses.now bits.now budget (Optimal model.now lines.now)) }
    ensures in_order { IfOk result (λ yes. yes ≡ true
        → AllClauses (clauses_of clauses.now.entries)) }
{
    if model.len() as u64 != clauses.vars() {
        return Ok(false);
    }
    if !are_within(budget, lines) {
        return Ok(false);
    }
    if !are_over(clauses.vars(), lines) {
        return Ok(false);
    }
    if !meets_all(alloc, clauses, model)? {
        return Ok(false);
    }
    let values = bits_of(alloc, model, bits)?;
    are_certificate(alloc, clauses, bits, values.as_slice(), lines)
}

/// A proposal, if it is right.
fn checked(
    alloc: Global,
    clauses: &ClauseList,
    bits: &[Lit],
    budget: u64,
    proposal: Proposal,
) -> Result<Option<Found>, AllocError>
    ensures found { IfOk result (λ found. IfSome found (IsFound clauses.now bits.now budget)) }
    ensures in_order { IfOk result (λ found. IfSome found
        (λ _. AllClauses (clauses_of clauses.now.entries))) }
{
    let Proposal { model, log } = proposal;
    if is_right(alloc, clauses, bits, budget, model.as_slice(), log.lines())? {
        let model = List::from_vec(model);
        return Ok(Some(Found::Optimal { model, log }));
    }
    Ok(None)
}

/// What the search in stages finds, if it is right.
fn found_in_stages<P: Progress>(
    alloc: Global,
    clauses: &ClauseList,
    start: Part,
    bits: &[Lit],
    numbers: &[Number],
    near: &[bool],
    budget: u64,
    progress: &mut P,
) -> Result<Option<Found>, AllocError>
    ensures found { IfOk result (λ found. IfSome found (IsFound clauses.now bits.now budget)) }
    ensures in_order { IfOk result (λ found. IfSome found
        (λ _. AllClauses (clauses_of clauses.now.entries))) }
{
    let parts = parts_of(alloc, clauses, start, bits, numbers)?;
    match propose(
        alloc,
        clauses,
        start,
        parts.as_slice(),
        bits,
        numbers,
        near,
        budget,
        progress,
    )? {
        Some(proposal) => checked(alloc, clauses, bits, budget, proposal),
        None => Ok(None),
    }
}

/// A model with the least bits, the first bit counting most, where the bits spell numbers, one
/// behind another, and the first clauses, over the first variables, are those of no number.
///
/// The clauses of a number come when its bits begin to be settled, and the search begins near the
/// values `near`, those of the first variables. What is found has the same bits, whatever stands in
/// `numbers` and `near` and wherever the first clauses end; how long it takes may differ.
/// Where the search in stages does not find them within the budget, the search of all clauses
/// begins from nothing, with the whole budget.
pub fn search_in_stages<P: Progress>(
    alloc: Global,
    clauses: &ClauseList,
    first_vars: u64,
    first_clauses: u64,
    bits: &[Lit],
    numbers: &[Number],
    near: &[bool],
    budget: u64,
    progress: &mut P,
) -> Result<Found, AllocError>
    requires in_range { AllBelow clauses.now.vars bits.now }
    ensures found { IfOk result (IsFound clauses.now bits.now budget) }
    ensures in_order { OnOk result (AllClauses (clauses_of clauses.now.entries)) }
{
    let start = Part {
        reach: first_vars,
        end: first_clauses,
    };
    match found_in_stages(alloc, clauses, start, bits, numbers, near, budget, progress)? {
        Some(found) => Ok(found),
        None => search_by_numbers(alloc, clauses, bits, numbers, budget, progress),
    }
}
