//! One bit: at 0 where the last model has it so, or where another model does, and otherwise at 1.
ghost use Rattle.std.specs.Prelude.{◌≡◌, ◌<◌, length, true, Some, IfOk, IfSome};
ghost use Rattle.std.specs.Option.{option_copied};
ghost use Rattle.clause_store.specs.Lits.{AllBelow, lit_true};
ghost use Rattle.clause_solver.specs.Models.{values_in};
ghost use Rattle.optimum_search.specs.Finding.{IsSearching, FixesBit, ends_past, number_at, left_of};

use crate::Number;
use clause_solver::{Outcome, Solver};
use clause_store::Lit;
use plain_data::List;
use std::alloc::{AllocError, Global};

/// Whether a literal is true in a model.
fn is_true(model: &[bool], lit: Lit) -> bool
    ensures { result ≡ lit_true (values_in model.now) lit }
{
    let value = model.get(lit.var.0 as usize).copied().unwrap_or(false);
    if lit.positive { value } else { !value }
}

/// Fixes the bit at a place, the next one, and says whether the budget was enough.
fn fix_bit(solver: &mut Solver, bits: &[Lit], at: usize, budget: u64) -> Result<bool, AllocError>
    requires searching { IsSearching bits.now budget at solver.old }
    requires within { at < length bits.now }
    requires in_range { AllBelow solver.old.vars bits.now }
    ensures { IfOk result (FixesBit bits.now budget at solver.old solver.new) }
{
    let bit = at as u64;
    let lit = bits[at];
    if !is_true(solver.model(), lit) {
        solver.fix(bit, lit)?;
        return Ok(true);
    }
    match solver.solve(Some((bit, lit)), budget)? {
        Outcome::Model => {
            solver.fix(bit, lit)?;
            Ok(true)
        }
        Outcome::Refuted => Ok(true),
        Outcome::Spent => Ok(false),
    }
}

/// The number that a bit is of; none where none ends behind it.
fn number_at<'a>(bits: &[Lit], numbers: &'a [Number], at: usize) -> Option<&'a Number>
    ensures found { option_copied result ≡ number_at bits.now numbers.now at }
    ensures past { IfSome result (λ number. ends_past bits.now at number.now ≡ true) }
{
    numbers
        .iter()
        .find(|number| at < number.end && number.end <= bits.len())
}

/// Whether a bit is the first of its number.
fn begins(numbers: &[Number], at: usize) -> bool {
    at == 0 || numbers.iter().any(|number| number.end == at)
}

/// The bits of a number from a place on.
fn left_of<'a>(bits: &'a [Lit], at: usize, number: &Number) -> &'a [Lit]
    requires { ends_past bits.now at number.now ≡ true }
    ensures { result.now ≡ left_of bits.now at (Some number.now) }
{
    &bits[at..number.end]
}

/// What is decided before all else while the bit at a place is settled; the parts of a number that
/// begins there come soon.
fn decide_number_first(
    alloc: Global,
    solver: &mut Solver,
    bits: &[Lit],
    numbers: &[Number],
    at: usize,
) -> Result<(), AllocError>
    ensures { solver.new ≡ solver.old }
{
    let mut first = Vec::new(alloc);
    if let Some(number) = number_at(bits, numbers, at) {
        first.extend_from_slice(left_of(bits, at, number))?;
        if begins(numbers, at) {
            solver.prefer_false(number.parts.as_slice());
        }
    }
    solver.decide_first(List::from_vec(first));
    Ok(())
}

/// Fixes the bit at a place while those left of its number are decided first.
pub fn fix_next_bit(
    alloc: Global,
    solver: &mut Solver,
    bits: &[Lit],
    numbers: &[Number],
    at: usize,
    budget: u64,
) -> Result<bool, AllocError>
    requires searching { IsSearching bits.now budget at solver.old }
    requires within { at < length bits.now }
    requires in_range { AllBelow solver.old.vars bits.now }
    ensures { IfOk result (FixesBit bits.now budget at solver.old solver.new) }
{
    decide_number_first(alloc, solver, bits, numbers, at)?;
    fix_bit(solver, bits, at, budget)
}
