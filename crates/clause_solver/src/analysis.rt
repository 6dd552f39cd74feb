//! What a false clause teaches: a clause with one literal of the last level, or the end of the
//! search.
//!
//! Both walk the trail back and resolve with reasons, by what they have seen. They know of the
//! watch only what it promises.
ghost use Rattle.std.specs.Prelude.{◌≡◌, ℕ, ◌+◌, ◌==◌, ◌<◌, ◌≤◌, [], ◌∷◌, ◌++◌, length, IfOk, IfSome, OnOk, Some};
ghost use Rattle.clause_store.specs.Lits.{var_of, AllBelow};
ghost use Rattle.clause_store.specs.Clauses.{at_id};
ghost use Rattle.clause_watch.specs.Trails.{decisions};
ghost use Rattle.clause_watch.specs.Reasons.{NamesFalse};
ghost use Rattle.clause_watch.specs.Watches.{IsWatch};
ghost use Rattle.clause_solver.specs.Seen.{AreClear};
ghost use Rattle.clause_solver.specs.Learning.{IsKnown, Resolves, IsTop, LeadsToUip, KeepsUip, IsLevelZeroReason, DerivesRest, IsBackjumpLevelOf, IsBackjumpLevel, IsLearnt};

use crate::seen::{Seen, last_seen};
use crate::variable_heap::VariableHeap;
use clause_store::{Clause, Lit};
use clause_watch::Watch;
use plain_data::List;
use std::alloc::{AllocError, Global};

/// Resolves the seen clause with the reason of a literal.
fn resolve(
    watch: &Watch,
    seen: &mut Seen,
    heap: &mut VariableHeap,
    chain: &mut List<u64>,
    lit: Lit,
    id: u64,
) -> Result<(), AllocError>
    requires right { IsWatch watch.now.vars watch.now.clauses watch.now.placed }
    requires in_range { length seen.old ≡ watch.now.vars }
    requires lit { var_of lit < watch.now.vars }
    requires known { IsKnown watch.now.clauses id }
    ensures seen { OnOk result (Resolves watch.now.clauses seen.old seen.new lit id) }
    ensures chain { OnOk result (chain.new ≡ chain.old ++ id ∷ []) }
    ensures same { length seen.new ≡ length seen.old }
{
    chain.push(id)?;
    seen.see_all(heap, watch.clause(id))?;
    seen.forget(lit.var.0 as usize);
    Ok(())
}

/// Resolves with reasons, from the last seen place down to the first unique implication point.
fn resolve_to_first_uip(
    watch: &Watch,
    seen: &mut Seen,
    heap: &mut VariableHeap,
    chain: &mut List<u64>,
    start: usize,
) -> Result<(), AllocError>
    requires right { IsWatch watch.now.vars watch.now.clauses watch.now.placed }
    requires in_range { length seen.old ≡ watch.now.vars }
    requires top { IsTop watch.now seen.old start }
    ensures { OnOk result (LeadsToUip watch.now seen.old seen.new chain.old chain.new) }
{
    let mut at = start;
    loop {
        let p = watch.at(at);
        let Some(before) = last_seen(seen, watch, at) else {
            return Ok(());
        };
        if watch.at(before).level != p.level {
            return Ok(());
        }
        let Some(id) = p.reason else { unreachable!() };
        resolve(watch, seen, heap, chain, p.lit, id)?;
        let Some(next) = last_seen(seen, watch, at) else {
            unreachable!()
        };
        at = next;
    }
}

/// The clause that gives a literal's variable its value at level 0.
fn level_zero_reason(watch: &Watch, lit: Lit) -> Option<u64>
    requires right { IsWatch watch.now.vars watch.now.clauses watch.now.placed }
    requires lit { var_of lit < watch.now.vars }
    ensures { IfSome result (IsLevelZeroReason watch.now.placed lit) }
{
    let Some(level) = watch.level(lit.var) else {
        return None;
    };
    if level > 0 {
        return None;
    }
    let Some(id) = watch.reason(lit.var) else {
        return None;
    };
    Some(id)
}

/// Whether a clause has one literal.
fn is_single(watch: &Watch, id: u64) -> bool
    requires known { IsKnown watch.now.clauses id }
    ensures { IfSome (at_id watch.now.clauses id) (λ c. result ≡ (length c == 1)) }
{
    watch.clause(id).len() == 1
}

/// Resolves a seen literal away where a clause of one literal makes it false at level 0.
fn minimize_by_unit(
    watch: &Watch,
    seen: &mut Seen,
    heap: &mut VariableHeap,
    chain: &mut List<u64>,
    lit: Lit,
) -> Result<(), AllocError>
    requires right { IsWatch watch.now.vars watch.now.clauses watch.now.placed }
    requires in_range { length seen.old ≡ watch.now.vars }
    requires lit { var_of lit < watch.now.vars }
    requires above { 0 < decisions watch.now.placed }
    ensures uip { OnOk result (KeepsUip watch.now seen.old seen.new chain.old chain.new) }
    ensures same { length seen.new ≡ length seen.old }
{
    if !seen.has(lit.var.0 as usize) {
        return Ok(());
    }
    let Some(id) = level_zero_reason(watch, lit) else {
        return Ok(());
    };
    if !is_single(watch, id) {
        return Ok(());
    }
    resolve(watch, seen, heap, chain, lit, id)?;
    Ok(())
}

/// The same for each of some literals.
fn minimize(
    watch: &Watch,
    seen: &mut Seen,
    heap: &mut VariableHeap,
    chain: &mut List<u64>,
    lits: &[Lit],
) -> Result<(), AllocError>
    requires right { IsWatch watch.now.vars watch.now.clauses watch.now.placed }
    requires in_range { length seen.old ≡ watch.now.vars }
    requires lits { AllBelow watch.now.vars lits.now }
    requires above { 0 < decisions watch.now.placed }
    ensures uip { OnOk result (KeepsUip watch.now seen.old seen.new chain.old chain.new) }
    ensures same { length seen.new ≡ length seen.old }
{
    for lit in lits {
        minimize_by_unit(watch, seen, heap, chain, *lit)?;
    }
    Ok(())
}

/// A chain of ids that begins with a false clause, and leads to the negations of decided literals.
///
/// The clause may also be the reason of the literal at `end`: the chain then leads to that literal.
pub fn refute(
    alloc: Global,
    watch: &Watch,
    seen: &mut Seen,
    heap: &mut VariableHeap,
    id: u64,
    end: usize,
) -> Result<List<u64>, AllocError>
    requires right { IsWatch watch.now.vars watch.now.clauses watch.now.placed }
    requires known { IsKnown watch.now.clauses id }
    requires end { end ≤ length watch.now.placed }
    requires in_range { length seen.old ≡ watch.now.vars }
    requires unseen { AreClear seen.old }
    ensures chain { IfOk result (λ chain. DerivesRest watch.now id end chain) }
    ensures unseen { OnOk result (AreClear seen.new) }
    ensures same { OnOk result (length seen.new ≡ length seen.old) }
{
    let mut chain = List::new(alloc);
    chain.push(id)?;
    seen.see_all(heap, watch.clause(id))?;
    let mut at = end;
    while let Some(before) = last_seen(seen, watch, at) {
        let p = watch.at(before);
        at = before;
        if let Some(reason) = p.reason {
            resolve(watch, seen, heap, &mut chain, p.lit, reason)?;
        }
    }
    seen.clear();
    Ok(chain)
}

/// A learnt clause, the chain that derives it, and the level to backjump to.
#[derive(Drop)]
pub struct Learnt {
    pub clause: Clause,
    pub chain: List<u64>,
    pub backjump: u64,
}

/// The level of a literal, if it has one below the present one.
fn backjump_level_of(watch: &Watch, lit: Lit, depth: u64) -> Option<u64>
    requires right { IsWatch watch.now.vars watch.now.clauses watch.now.placed }
    requires in_range { var_of lit < watch.now.vars }
    requires depth { depth ≡ decisions watch.now.placed }
    ensures { IsBackjumpLevelOf watch.now.placed lit result }
{
    match watch.level(lit.var) {
        Some(level) => { if level < depth { Some(level) } else { None } }
        None => None,
    }
}

/// The highest level of some literals that is below the present one.
fn backjump_level(watch: &Watch, lits: &[Lit]) -> u64
    requires right { IsWatch watch.now.vars watch.now.clauses watch.now.placed }
    requires in_range { AllBelow watch.now.vars lits.now }
    ensures { IsBackjumpLevel watch.now.placed lits.now result }
{
    let depth = watch.depth();
    let mut highest = 0;
    for lit in lits {
        if let Some(level) = backjump_level_of(watch, *lit, depth) {
            highest = level.max(highest);
        }
    }
    highest
}

/// What a false clause teaches above level 0.
pub fn analyze(
    alloc: Global,
    watch: &Watch,
    seen: &mut Seen,
    heap: &mut VariableHeap,
    conflict: u64,
) -> Result<Learnt, AllocError>
    requires right { IsWatch watch.now.vars watch.now.clauses watch.now.placed }
    requires conflict { NamesFalse watch.now.placed watch.now.clauses conflict }
    requires above { 0 < decisions watch.now.placed }
    requires in_range { length seen.old ≡ watch.now.vars }
    requires unseen { AreClear seen.old }
    ensures learnt { IfOk result (IsLearnt watch.now) }
    ensures unseen { OnOk result (AreClear seen.new) }
    ensures same { OnOk result (length seen.new ≡ length seen.old) }
{
    let mut chain = List::new(alloc);
    chain.push(conflict)?;
    seen.see_all(heap, watch.clause(conflict))?;
    let Some(start) = last_seen(seen, watch, watch.trail().len()) else {
        unreachable!()
    };
    resolve_to_first_uip(watch, seen, heap, &mut chain, start)?;
    let found = seen.false_lits(alloc, watch)?;
    minimize(watch, seen, heap, &mut chain, found.as_slice())?;
    let lits = seen.false_lits(alloc, watch)?;
    let backjump = backjump_level(watch, lits.as_slice());
    let Some(clause) = Clause::new(alloc, lits.as_slice())? else {
        unreachable!()
    };
    let _ = clause.lits();
    seen.clear();
    Ok(Learnt {
        clause,
        chain,
        backjump,
    })
}
