//! The formulas of a long list.
ghost use Rattle.std.specs.Prelude.{◌≡◌, ◌++◌, map, IfOk, OnOk};
ghost use Rattle.clause_formulas.specs.Statements.{apart, atom};
ghost use Rattle.clause_formulas.specs.Few.{none_of, halves_apart, few_of, few_among, one_among};

use crate::Formula;
use crate::formula::push_not_both;
use clause_store::Lit;
use std::alloc::{AllocError, Global};

/// How many literals are kept apart pair by pair.
const SHORT: usize = 8;

/// Exactly one literal of the list is true.
pub fn exactly_one(alloc: Global, lits: &[Lit]) -> Result<Formula, AllocError>
    ensures { IfOk result (λ formula. formula ≡ one_among lits.now) }
{
    let mut parts = Vec::new(alloc);
    parts.push(Formula::any(atoms(alloc, lits)?))?;
    push_few(alloc, &mut parts, lits)?;
    Formula::all(alloc, parts)
}

/// Adds formulas that are all true exactly where at most one literal of the list is.
pub fn push_few(alloc: Global, parts: &mut Vec<Formula>, lits: &[Lit]) -> Result<(), AllocError>
    ensures { OnOk result (parts.new.items ≡ parts.old.items ++ few_among lits.now) }
{
    push_halved(alloc, parts, lits, lits.len() / SHORT)
}

/// The same, halving a list that is longer than a short one at most so many times.
fn push_halved(
    alloc: Global,
    parts: &mut Vec<Formula>,
    lits: &[Lit],
    times: usize,
) -> Result<(), AllocError>
    ensures { OnOk result (parts.new.items ≡ parts.old.items ++ few_of times lits.now) }
{
    if times == 0 {
        return push_apart(alloc, parts, lits);
    }
    if lits.len() <= SHORT {
        return push_apart(alloc, parts, lits);
    }
    let half = lits.len() / 2;
    parts.push(halves_apart(alloc, &lits[..half], &lits[half..])?)?;
    push_halved(alloc, parts, &lits[..half], times - 1)?;
    push_halved(alloc, parts, &lits[half..], times - 1)?;
    Ok(())
}

// None of these, or none of those.
fn halves_apart(alloc: Global, front: &[Lit], back: &[Lit]) -> Result<Formula, AllocError>
    ensures { IfOk result (λ formula. formula ≡ halves_apart front.now back.now) }
{
    let mut parts = Vec::new(alloc);
    parts.push(none_of(alloc, front)?)?;
    parts.push(none_of(alloc, back)?)?;
    Ok(Formula::any(parts))
}

fn none_of(alloc: Global, lits: &[Lit]) -> Result<Formula, AllocError>
    ensures { IfOk result (λ formula. formula ≡ none_of lits.now) }
{
    let some = Formula::any(atoms(alloc, lits)?);
    Ok(some.negated())
}

fn atoms(alloc: Global, lits: &[Lit]) -> Result<Vec<Formula>, AllocError>
    ensures { IfOk result (λ formulas. formulas.items ≡ map atom lits.now) }
{
    let mut formulas = Vec::new(alloc);
    for lit in lits {
        formulas.push(Formula::lit(*lit))?;
    }
    Ok(formulas)
}

// Not two of the literals.
fn push_apart(alloc: Global, parts: &mut Vec<Formula>, lits: &[Lit]) -> Result<(), AllocError>
    ensures { OnOk result (parts.new.items ≡ parts.old.items ++ apart lits.now) }
{
    for (i, lit) in lits.iter().enumerate() {
        push_not_both(alloc, parts, *lit, &lits[i + 1..])?;
    }
    Ok(())
}
