//! Binary sums by digits of base 4.
ghost use Rattle.std.specs.Prelude.{◌≡◌, ◌++◌, ◌<◌, ◌^◌, ◌∷◌, [], IfOk, OnOk};
ghost use Rattle.clause_circuits.specs.Growth.{Extends};
ghost use Rattle.clause_circuits.specs.Steps.{plan_at};
ghost use Rattle.clause_circuits.specs.Trees.{total, TermsBelow};
ghost use Rattle.clause_circuits.specs.Binary.{spell_on, IsSum};
ghost use Rattle.clause_circuits.specs.Built.{IsBuilt};
ghost use Rattle.clause_circuits.specs.Cells.{known_on};
ghost use Rattle.criteria_totals.specs.Digits.{low_bit_on, high_bit, bits_on, digit_bits_on, one_or_three as one_or_three_gate};

use crate::digits::digit_tree;
use clause_circuits::{Gate, Lits, Plan, define_plan, size, total};
use clause_store::{ClauseList, Lit};
use std::alloc::{AllocError, Global};

/// The sum of the weights of true literals: its bits, the highest first, as many as all weights'
/// sum has.
///
/// The list is halved at every step, and sums are built by digits of base 4, each in unary inside.
/// A bit that is known at the top takes a variable.
pub fn sum_by_digits(
    alloc: Global,
    clauses: &mut ClauseList,
    terms: &[(u64, Lit)],
) -> Result<Vec<Lit>, AllocError>
    requires in_range { TermsBelow clauses.old.vars terms.now }
    requires small { total terms.now < 2 ^ 63 }
    ensures built { IfOk result (λ bits. IsBuilt clauses.old clauses.new
        (digit_bits_on (plan_at clauses.old) terms.now) bits.items) }
    ensures sum { IfOk result (λ bits. IsSum clauses.old clauses.new bits.items terms.now) }
    ensures extends { Extends clauses.old clauses.new }
{
    let mut plan = Plan::new(alloc, clauses);
    let bits = plan_digits(alloc, &mut plan, terms)?;
    define_plan(alloc, clauses, &plan)?;
    Ok(bits)
}

/// Plans the sum of the weights of true literals: its bits, the highest first.
pub fn plan_digits(
    alloc: Global,
    plan: &mut Plan,
    terms: &[(u64, Lit)],
) -> Result<Vec<Lit>, AllocError>
    requires { total terms.now < 2 ^ 63 }
    ensures { IfOk result (λ bits. digit_bits_on plan.old terms.now ≡ record {
      plan =
          plan.new;
      answer = bits.items;
    }) }
{
    let sum = digit_tree(alloc, plan, terms)?;
    let mut bits = bits_of(alloc, plan, sum.as_slice())?;
    bits.truncate(size(total(terms)));
    let mut lits = spell(alloc, plan, bits.as_slice())?;
    lits.reverse();
    Ok(lits)
}

// The bits of digits, the lowest first.
fn bits_of(alloc: Global, plan: &mut Plan, digits: &[Lits]) -> Result<Vec<Option<Lit>>, AllocError>
    ensures { IfOk result (λ bits. bits_on plan.old digits.now ≡ record {
      plan = plan.new;
      answer =
          bits.items;
    }) }
{
    let mut bits = Vec::new(alloc);
    for digit in digits {
        let digit = digit.as_slice();
        bits.push(low_bit(alloc, plan, digit)?)?;
        bits.push(high_bit(digit))?;
    }
    Ok(bits)
}

// The low bit of a digit.
fn low_bit(alloc: Global, plan: &mut Plan, digit: &[Lit]) -> Result<Option<Lit>, AllocError>
    ensures { IfOk result (λ bit. low_bit_on plan.old digit.now ≡ record {
      plan = plan.new;
      answer =
          bit;
    }) }
{
    match digit {
        [] => Ok(None),
        [a] => Ok(Some(*a)),
        [a, b] => Ok(Some(plan.add(Gate::both(*a, b.negated()))?)),
        [a, b, c, ..] => {
            let gate = one_or_three(alloc, *a, *b, *c)?;
            Ok(Some(plan.add(gate)?))
        }
    }
}

// The gate for one or three of three sorted literals.
fn one_or_three(alloc: Global, a: Lit, b: Lit, c: Lit) -> Result<Gate, AllocError>
    ensures { IfOk result (λ gate. gate ≡ one_or_three_gate a b c) }
{
    let mut on = Vec::with_capacity(alloc, 2)?;
    push_lits(alloc, &mut on, &[a.negated(), b])?;
    push_lits(alloc, &mut on, &[c.negated()])?;
    let mut off = Vec::with_capacity(alloc, 2)?;
    push_lits(alloc, &mut off, &[a])?;
    push_lits(alloc, &mut off, &[b.negated(), c])?;
    Ok(Gate::by_clauses(on, off))
}

fn push_lits(alloc: Global, clauses: &mut Vec<Lits>, lits: &[Lit]) -> Result<(), AllocError>
    ensures { OnOk result (clauses.new.items ≡ clauses.old.items ++ lits.now ∷ []) }
{
    clauses.push(Lits::from_slice(alloc, lits)?)?;
    Ok(())
}

// The high bit of a digit.
fn high_bit(digit: &[Lit]) -> Option<Lit>
    ensures { result ≡ high_bit digit.now }
{
    match digit {
        [] => None,
        [_] => None,
        [_, b, ..] => Some(*b),
    }
}

// Literals for bits.
fn spell(alloc: Global, plan: &mut Plan, bits: &[Option<Lit>]) -> Result<Vec<Lit>, AllocError>
    ensures { IfOk result (λ lits. spell_on plan.old bits.now ≡ record {
      plan = plan.new;
      answer =
          lits.items;
    }) }
{
    let mut lits = Vec::new(alloc);
    for bit in bits {
        lits.push(known(plan, *bit)?)?;
    }
    Ok(lits)
}

// A literal for a bit: one that is true nowhere where the bit is known to be false.
fn known(plan: &mut Plan, bit: Option<Lit>) -> Result<Lit, AllocError>
    ensures { IfOk result (λ lit. known_on plan.old bit ≡ record {
      plan =
          plan.new;
      answer = lit;
    }) }
{
    match bit {
        Some(lit) => Ok(lit),
        None => {
            let lit = plan.add(Gate::never())?;
            Ok(lit)
        }
    }
}
