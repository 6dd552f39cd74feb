//! One round: some candidates are left out, and the rest is searched.
ghost use Rattle.std.specs.Prelude.{◌≡◌, ◌<◌, ◌≤◌, ◌^◌, ℕ, Bool, [], length, IfOk, OnOk};
ghost use Rattle.clause_store.specs.Clauses.{clauses_of, Meets};
ghost use Rattle.proof_log.specs.Known.{AllClauses};
ghost use Rattle.proof_log.specs.Certificates.{IsRefutation, IsSpentLog};
ghost use Rattle.explain_failure.specs.Uses.{stands, IsRising};
ghost use Rattle.reason_minimum.specs.Parts.{clauses_for};
ghost use Rattle.reason_minimum.specs.Reductions.{Reduces, IsModelFor, in_rest, left_of, IsRound};

use crate::part::clauses_for;
use crate::reasons::LeastReasons;
use crate::reduction::{Reduction, first_of};
use clause_store::ClauseList;
use explain_failure::{reason_laws, reasons};
use optimum_search::{Found, found_laws, search};
use plain_data::List;
use proof_log::Log;
use std::alloc::{AllocError, Global};

/// The demands that a refutation rests on: no assignment meets their clauses.
pub fn refuting(alloc: Global, clauses: &ClauseList, log: &Log) -> Result<List<u64>, AllocError>
    requires refuted { IsRefutation clauses.now.vars (clauses_of clauses.now.entries) [] log.now }
    requires in_order { AllClauses (clauses_of clauses.now.entries) }
    ensures rising { IfOk result (λ demands. IsRising demands) }
    ensures unmet { IfOk result (λ demands. (v : ℕ → Bool)
        → Meets (stands demands) v clauses.now.entries → ⊥) }
{
    reason_laws();
    let demands = reasons(alloc, clauses, log)?;
    Ok(demands)
}

/// Uses a model of the rest: the one candidate that it breaks is needed; where it breaks several,
/// fewer are left out from now on.
fn use_model(
    alloc: Global,
    clauses: &ClauseList,
    reduction: &mut Reduction,
    count: usize,
    model: List<bool>,
) -> Result<(), AllocError>
    requires reduces { Reduces clauses.now reduction.old }
    requires some { 0 < length reduction.old.candidates.items }
    requires count { 0 < count }
    requires several { 1 < count → count ≤ reduction.old.several }
    requires model { IsModelFor clauses.now (in_rest reduction.old count) model }
    ensures reduces { OnOk result (Reduces clauses.now reduction.new) }
    ensures less { OnOk result (left_of reduction.new < left_of reduction.old) }
{
    match reduction.needed_one(alloc, clauses, count, model.as_slice())? {
        Some(demand) => {
            reduction.settle(alloc, demand, model)?;
            Ok(())
        }
        None => {
            reduction.several = count / 2;
            Ok(())
        }
    }
}

/// The answer where the budget was spent with one candidate left out. With several, fewer are left
/// out from now on.
fn spent(
    _clauses: &ClauseList,
    reduction: &mut Reduction,
    count: usize,
    rest: Vec<u64>,
    _budget: u64,
    log: Log,
) -> Option<LeastReasons>
    requires reduces { Reduces _clauses.now reduction.old }
    requires some { 0 < length reduction.old.candidates.items }
    requires count { 0 < count }
    requires several { 1 < count → count ≤ reduction.old.several }
    requires rising { IsRising rest.items }
    requires members { (d : ℕ) → stands rest.items d ≡ in_rest reduction.old count d }
    requires spent { IsSpentLog _clauses.now.vars
        (clauses_of (clauses_for rest.items _clauses.now).entries) [] _budget log }
    requires below_all { _budget < 3 ^ _clauses.now.vars }
    requires below_lines { _budget < length log }
    ensures { IsRound _clauses.now _budget reduction.old reduction.new result }
{
    if count > 1 {
        reduction.several = count / 2;
        return None;
    }
    Some(LeastReasons::Spent {
        demands: List::from_vec(rest),
        more: Some(first_of(reduction.candidates.as_slice())),
        log,
    })
}

/// Leaves out some candidates and searches the rest. A refutation of it rests on fewer; a model may
/// show that a candidate is needed.
pub fn leave_out(
    alloc: Global,
    clauses: &ClauseList,
    reduction: &mut Reduction,
    budget: u64,
) -> Result<Option<LeastReasons>, AllocError>
    requires reduces { Reduces clauses.now reduction.old }
    requires some { 0 < length reduction.old.candidates.items }
    ensures { IfOk result (IsRound clauses.now budget reduction.old reduction.new) }
{
    found_laws();
    let count = reduction.count();
    let rest = reduction.rest(alloc, count)?;
    let part = clauses_for(alloc, clauses, rest.as_slice())?;
    match search(alloc, &part, &[], budget)? {
        Found::Refuted { log } => {
            let demands = refuting(alloc, &part, &log)?;
            reduction.keep(alloc, count, demands.as_slice())?;
            Ok(None)
        }
        Found::Optimal { model, log: _ } => {
            use_model(alloc, clauses, reduction, count, model)?;
            Ok(None)
        }
        Found::Spent { log } => Ok(spent(clauses, reduction, count, rest, budget, log)),
    }
}
