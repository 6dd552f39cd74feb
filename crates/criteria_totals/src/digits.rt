//! Digits of base 4: each a sorted list of at most three literals.
ghost use Rattle.std.specs.Prelude.{◌≡◌, ◌++◌, ◌<◌, ◌^◌, [], drop, map, replicate, IfOk, OnOk};
ghost use Rattle.clause_store.specs.Lits.{negation};
ghost use Rattle.clause_circuits.specs.Trees.{total, halved};
ghost use Rattle.criteria_totals.specs.Digits.{not_above, left_over, digit_on, first_digit, add_digits, digit_count, weight_digits, digits_on};

use crate::merges::{above, merged, push_negated};
use clause_circuits::{Gate, Lits, Plan, size, total};
use clause_store::Lit;
use smallvec::SmallVec;
use std::alloc::{AllocError, Global};

/// The digits of a sum, the lowest first.
pub(crate) fn digit_tree(
    alloc: Global,
    plan: &mut Plan,
    terms: &[(u64, Lit)],
) -> Result<Vec<Lits>, AllocError>
    requires { total terms.now < 2 ^ 63 }
    ensures { IfOk result (λ digits. digits_on plan.old (halved terms.now) ≡ record {
      plan =
          plan.new;
      answer = digits.items;
    }) }
{
    match terms {
        [] => Ok(Vec::new(alloc)),
        [term] => {
            let digits = weight_digits(alloc, term.0, term.1)?;
            Ok(digits)
        }
        _ => {
            let (front, back) = terms.split_at(terms.len() / 2);
            let a = digit_tree(alloc, plan, front)?;
            let b = digit_tree(alloc, plan, back)?;
            let count = digit_count(total(terms));
            let digits = add(alloc, plan, count, a.as_slice(), b.as_slice())?;
            Ok(digits)
        }
    }
}

// How many digits a number has.
fn digit_count(number: u64) -> usize
    ensures { result ≡ digit_count number }
{
    (size(number) + 1) / 2
}

// A literal as often as a weight's digits say.
fn weight_digits(alloc: Global, weight: u64, lit: Lit) -> Result<Vec<Lits>, AllocError>
    requires { weight < 2 ^ 63 }
    ensures { IfOk result (λ digits. digits.items
        ≡ weight_digits (digit_count weight) weight lit) }
{
    let mut left = weight;
    let mut digits = Vec::new(alloc);
    for _i in 0..digit_count(weight) {
        digits.push(repeated(alloc, left % 4, lit)?)?;
        left /= 4;
    }
    Ok(digits)
}

fn repeated(alloc: Global, count: u64, lit: Lit) -> Result<Lits, AllocError>
    ensures { IfOk result (λ lits. lits ≡ replicate count lit) }
{
    let mut lits: SmallVec<Lit, 3> = SmallVec::new(alloc);
    for _i in 0..count {
        lits.push(lit)?;
    }
    Ok(Lits::from_small(lits))
}

// The lowest digits of a sum. What a digit is more than three is the next one's carry.
fn add(
    alloc: Global,
    plan: &mut Plan,
    count: usize,
    a: &[Lits],
    b: &[Lits],
) -> Result<Vec<Lits>, AllocError>
    ensures { IfOk result (λ digits. add_digits count plan.old [] a.now b.now ≡ record {
      plan =
          plan.new;
      answer = digits.items;
    }) }
{
    let mut carry = Vec::new(alloc);
    let mut digits = Vec::new(alloc);
    for i in 0..count {
        let here = merged(alloc, plan, digit_at(a, i), digit_at(b, i))?;
        let all = merged(alloc, plan, here.as_slice(), carry.as_slice())?;
        digits.push(digit(alloc, plan, all.as_slice())?)?;
        carry = Vec::from_slice(alloc, above(all.as_slice(), 3))?;
    }
    Ok(digits)
}

// The digit at a place: none beyond the last.
fn digit_at(digits: &[Lits], place: usize) -> &[Lit]
    ensures { result.now ≡ first_digit (drop place digits.now) }
{
    if place < digits.len() {
        digits[place].as_slice()
    } else {
        &[]
    }
}

// The digit of a sorted list of at most seven: what is left of it without four.
fn digit(alloc: Global, plan: &mut Plan, sorted: &[Lit]) -> Result<Lits, AllocError>
    ensures { IfOk result (λ digit. digit_on plan.old sorted.now ≡ record {
      plan = plan.new;
      answer =
          digit;
    }) }
{
    if sorted.len() <= 3 {
        return Lits::from_slice(alloc, sorted);
    }
    let first = plan.add(left_over(alloc, sorted, 0)?)?;
    let second = plan.add(left_over(alloc, sorted, 1)?)?;
    let third = plan.add(left_over(alloc, sorted, 2)?)?;
    Lits::from_slice(alloc, &[first, second, third])
}

// The gate for more than i without four.
fn left_over(alloc: Global, sorted: &[Lit], i: usize) -> Result<Gate, AllocError>
    requires { i < 3 }
    ensures { IfOk result (λ gate. gate ≡ left_over sorted.now i) }
{
    let mut on = Vec::with_capacity(alloc, 2)?;
    on.push(implied(alloc, above(sorted, i), above(sorted, 3))?)?;
    push_not_above(alloc, &mut on, sorted, i + 4)?;
    let mut off = Vec::with_capacity(alloc, 2)?;
    off.push(Lits::from_slice(alloc, above(sorted, i))?)?;
    off.push(implied(alloc, above(sorted, 3), above(sorted, i + 4))?)?;
    Ok(Gate::by_clauses(on, off))
}

// A clause against more than i, if so many can be.
fn push_not_above(
    alloc: Global,
    clauses: &mut Vec<Lits>,
    sorted: &[Lit],
    i: usize,
) -> Result<(), AllocError>
    ensures { OnOk result (clauses.new.items ≡ clauses.old.items ++ not_above sorted.now i) }
{
    if i < sorted.len() {
        let mut lits = SmallVec::new(alloc);
        push_negated(&mut lits, above(sorted, i))?;
        clauses.push(Lits::from_small(lits))?;
    }
    Ok(())
}

// Where the first are true, some of the second is.
fn implied(alloc: Global, given: &[Lit], then: &[Lit]) -> Result<Lits, AllocError>
    ensures { IfOk result (λ lits. lits ≡ map negation given.now ++ then.now) }
{
    let mut lits = SmallVec::new(alloc);
    push_negated(&mut lits, given)?;
    lits.extend_from_slice(then)?;
    Ok(Lits::from_small(lits))
}
