//! The clauses of some demands, as a list of their own.
ghost use Rattle.std.specs.Prelude.{◌≡◌, [], ◌∷◌, ◌++◌, Some, IfOk, OnOk};
ghost use Rattle.std.specs.List.{filter};
ghost use Rattle.std.specs.Option.{option_map};
ghost use Rattle.clause_store.specs.declared.list.Entry.{Entry};
ghost use Rattle.clause_store.specs.Clauses.{at_id, counts};
ghost use Rattle.explain_failure.specs.Uses.{stands, IsRising};
ghost use Rattle.explain_failure.specs.Marks.{demand_at};
ghost use Rattle.reason_minimum.specs.Parts.{is_for, clauses_for, AreAll};

use crate::numbers::{put, stands};
use clause_store::{ClauseList, Entry, Label};
use std::alloc::{AllocError, Global};

/// Whether clauses with this label are among those of some demands.
pub fn counts(demands: &[u64], label: Label) -> bool
    ensures { result ≡ counts (stands demands.now) label }
{
    match label {
        Label::Structure => true,
        Label::Demand(demand) => stands(demands, demand),
    }
}

/// No clause over so many variables.
fn without_clauses(alloc: Global, vars: u64) -> Result<ClauseList, AllocError>
    ensures { IfOk result (λ part. part ≡ record { entries = []; vars = vars }) }
{
    let mut part = ClauseList::new(alloc);
    for _made in 0..vars {
        part.new_var()?;
    }
    Ok(part)
}

/// Adds the clause with this id, if it is one of some demands.
fn add_for(
    alloc: Global,
    part: &mut ClauseList,
    clauses: &ClauseList,
    demands: &[u64],
    id: u64,
) -> Result<(), AllocError>
    requires { part.old.vars ≡ clauses.now.vars }
    ensures { OnOk result ((e : Entry) → at_id clauses.now.entries id ≡ Some e
        → part.new ≡ record part.old {
          entries = part.old.entries ++ filter (is_for (stands demands.now)) (e ∷ []);
        }) }
{
    let _vars = clauses.vars();
    let Some(Entry { clause, label }) = clauses.entry(alloc, id)? else {
        return Ok(());
    };
    if counts(demands, label) {
        part.add(clause, label)?;
    }
    Ok(())
}

/// The clauses of the structure and those of these demands, in their order, over the same
/// variables.
pub fn clauses_for(
    alloc: Global,
    clauses: &ClauseList,
    demands: &[u64],
) -> Result<ClauseList, AllocError>
    ensures { IfOk result (λ part. part ≡ clauses_for demands.now clauses.now) }
{
    let mut part = without_clauses(alloc, clauses.vars())?;
    for place in 0..clauses.len() {
        add_for(alloc, &mut part, clauses, demands, place + 1)?;
    }
    Ok(part)
}

/// The demand that labels the clause with this id, where one does.
fn demand_at(clauses: &ClauseList, id: u64) -> Option<u64>
    ensures { result ≡ demand_at (option_map (λ e. e.label) (at_id clauses.now.entries id)) }
{
    match clauses.label(id) {
        Some(Label::Demand(demand)) => Some(demand),
        _ => None,
    }
}

/// All demands that label a clause, rising and each once.
pub fn all_demands(alloc: Global, clauses: &ClauseList) -> Result<Vec<u64>, AllocError>
    ensures rising { IfOk result (λ demands. IsRising demands.items) }
    ensures all { IfOk result (λ demands. AreAll clauses.now demands.items) }
{
    let mut demands = Vec::new(alloc);
    for place in 0..clauses.len() {
        match demand_at(clauses, place + 1) {
            Some(demand) => put(&mut demands, demand)?,
            None => {}
        }
    }
    Ok(demands)
}
