//! Which demand a model breaks.
ghost use Rattle.std.specs.Prelude.{◌≡◌, true, Some, IfOk, IfSome, IfNone};
ghost use Rattle.clause_store.specs.declared.list.Entry.{Entry};
ghost use Rattle.clause_store.specs.declared.Label.TheVariants.{Demand};
ghost use Rattle.clause_store.specs.Lits.{lit_true, clause_true};
ghost use Rattle.clause_store.specs.Clauses.{at_id, entry_met, Meets};
ghost use Rattle.explain_failure.specs.Uses.{stands};
ghost use Rattle.clause_solver.specs.Models.{values_in};
ghost use Rattle.reason_minimum.specs.Reductions.{all_but};

use crate::part::counts;
use clause_store::{ClauseList, Entry, Label, Lit};
use std::alloc::{AllocError, Global};

/// Whether a literal is true in a model.
fn is_true(model: &[bool], lit: Lit) -> bool
    ensures { result ≡ lit_true (values_in model.now) lit }
{
    let value = model.get(lit.var.0 as usize).copied().unwrap_or(false);
    if lit.positive { value } else { !value }
}

/// Whether a model meets a clause.
fn is_met(model: &[bool], lits: &[Lit]) -> bool
    ensures { result ≡ clause_true (values_in model.now) lits.now }
{
    for lit in lits {
        if is_true(model, *lit) {
            return true;
        }
    }
    false
}

/// The label of the clause with this id, where it is one of these demands and the model breaks it.
fn broken_label(
    alloc: Global,
    clauses: &ClauseList,
    demands: &[u64],
    model: &[bool],
    id: u64,
) -> Result<Option<Label>, AllocError>
    ensures met { IfOk result (λ label. IfNone label ((e : Entry)
        → at_id clauses.now.entries id ≡ Some e
        → entry_met (stands demands.now) (values_in model.now) e ≡ true)) }
    ensures label { IfOk result (λ label. IfSome label (λ l. (e : Entry)
        → at_id clauses.now.entries id ≡ Some e → e.label ≡ l)) }
{
    let Some(Entry { clause, label }) = clauses.entry(alloc, id)? else {
        return Ok(None);
    };
    if !counts(demands, label) {
        return Ok(None);
    }
    if is_met(model, clause.lits()) {
        return Ok(None);
    }
    Ok(Some(label))
}

/// The only one of these demands that a model breaks. None where it breaks no clause of theirs, or
/// those of several, or of the structure.
pub fn only_broken(
    alloc: Global,
    clauses: &ClauseList,
    demands: &[u64],
    model: &[bool],
) -> Result<Option<u64>, AllocError>
    ensures { IfOk result (λ broken. IfSome broken (λ d.
        Meets (all_but (stands demands.now) d) (values_in model.now) clauses.now.entries)) }
{
    let mut broken = None;
    for place in 0..clauses.len() {
        match broken_label(alloc, clauses, demands, model, place + 1)? {
            None => {}
            Some(label) => {
                let Some(demand) = only_one(broken, label) else {
                    return Ok(None);
                };
                broken = Some(demand);
            }
        }
    }
    Ok(broken)
}

/// The demand of a label, where no other was broken so far.
fn only_one(broken: Option<u64>, label: Label) -> Option<u64>
    ensures label { IfSome result (λ d. label ≡ Demand d) }
    ensures only { IfSome result (λ d. IfSome broken (λ other. other ≡ d)) }
{
    let Label::Demand(demand) = label else {
        return None;
    };
    match broken {
        None => Some(demand),
        Some(other) => { if other == demand { Some(demand) } else { None } }
    }
}
