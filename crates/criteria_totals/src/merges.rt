//! Sorted lists: two merged into one.
ghost use Rattle.std.specs.Prelude.{◌≡◌, ◌+◌, ◌++◌, ◌<◌, ◌≤◌, ◌^◌, length, map, IfOk, OnOk};
ghost use Rattle.clause_store.specs.Lits.{negation};
ghost use Rattle.criteria_totals.specs.Merges.{above, upto, on_clause, off_clause, at_least, merge_from, merged_on};

use clause_circuits::{Gate, Lits, Plan};
use clause_store::Lit;
use smallvec::SmallVec;
use std::alloc::{AllocError, Global};

/// Two sorted lists as one: without a gate where one is empty.
pub(crate) fn merged(
    alloc: Global,
    plan: &mut Plan,
    a: &[Lit],
    b: &[Lit],
) -> Result<Vec<Lit>, AllocError>
    ensures { IfOk result (λ lits. merged_on plan.old a.now b.now ≡ record {
      plan =
          plan.new;
      answer = lits.items;
    }) }
{
    if a.is_empty() {
        return Vec::from_slice(alloc, b);
    }
    if b.is_empty() {
        return Vec::from_slice(alloc, a);
    }
    merge(alloc, plan, a, b)
}

/// Two sorted lists as one, by a gate for each number.
pub(crate) fn merge(
    alloc: Global,
    plan: &mut Plan,
    a: &[Lit],
    b: &[Lit],
) -> Result<Vec<Lit>, AllocError>
    ensures { IfOk result (λ lits. merge_from 1 (length a.now + length b.now) plan.old a.now b.now
        ≡ record { plan = plan.new; answer = lits.items }) }
{
    let mut lits = Vec::with_capacity(alloc, a.len() + b.len())?;
    for k in 0..a.len() + b.len() {
        lits.push(plan.add(at_least(alloc, k + 1, a, b)?)?)?;
    }
    Ok(lits)
}

// The gate for at least k of two sorted lists.
fn at_least(alloc: Global, k: usize, a: &[Lit], b: &[Lit]) -> Result<Gate, AllocError>
    requires { k < 2 ^ 63 }
    ensures { IfOk result (λ g. g ≡ at_least k a.now b.now) }
{
    // Neither side has more clauses than this.
    let most = k.min(a.len()) + 1;
    let mut on = Vec::with_capacity(alloc, most)?;
    for i in 0..k + 1 {
        push_on(alloc, &mut on, k, a, b, i)?;
    }
    let mut off = Vec::with_capacity(alloc, most)?;
    for i in 0..k {
        push_off(alloc, &mut off, k, a, b, i)?;
    }
    Ok(Gate::by_clauses(on, off))
}

// At least i of the first and k - i of the second make k.
fn push_on(
    alloc: Global,
    on: &mut Vec<Lits>,
    k: usize,
    a: &[Lit],
    b: &[Lit],
    i: usize,
) -> Result<(), AllocError>
    requires { i ≤ k }
    ensures { OnOk result (on.new.items ≡ on.old.items ++ on_clause k a.now b.now i) }
{
    if i <= a.len() && k - i <= b.len() {
        let mut lits = SmallVec::new(alloc);
        push_negated(&mut lits, upto(a, i))?;
        push_negated(&mut lits, upto(b, k - i))?;
        on.push(Lits::from_small(lits))?;
    }
    Ok(())
}

// At most i of the first and k - 1 - i of the second do not.
fn push_off(
    alloc: Global,
    off: &mut Vec<Lits>,
    k: usize,
    a: &[Lit],
    b: &[Lit],
    i: usize,
) -> Result<(), AllocError>
    requires { i < k }
    ensures { OnOk result (off.new.items ≡ off.old.items ++ off_clause k a.now b.now i) }
{
    if i <= a.len() && k - 1 - i <= b.len() {
        let mut lits: SmallVec<Lit, 3> = SmallVec::new(alloc);
        lits.extend_from_slice(above(a, i))?;
        lits.extend_from_slice(above(b, k - 1 - i))?;
        off.push(Lits::from_small(lits))?;
    }
    Ok(())
}

/// The literal for more than `count`: none above the last.
pub(crate) fn above(lits: &[Lit], count: usize) -> &[Lit]
    ensures { result.now ≡ above lits.now count }
{
    if count < lits.len() {
        &lits[count..count + 1]
    } else {
        &[]
    }
}

// The literal for at least `count`: none for 0.
fn upto(lits: &[Lit], count: usize) -> &[Lit]
    ensures { result.now ≡ upto lits.now count }
{
    if count == 0 {
        &[]
    } else {
        above(lits, count - 1)
    }
}

/// The negations of literals.
pub(crate) fn push_negated(lits: &mut SmallVec<Lit, 3>, more: &[Lit]) -> Result<(), AllocError>
    ensures { OnOk result (lits.new.items ≡ lits.old.items ++ map negation more.now) }
{
    for lit in more {
        lits.push(lit.negated())?;
    }
    Ok(())
}
