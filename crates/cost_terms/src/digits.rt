//! Weights as weighted formulas, one for each binary digit.
ghost use Rattle.std.specs.Prelude.{◌≡◌, ◌++◌, ◌*◌, ◌<◌, ◌^◌, map, IfOk, OnOk};
ghost use Rattle.cost_terms.specs.Spread.{weighed_choices, is_odd, half_of, digit_terms, plain_terms, greatest, spread_terms};
ghost use Rattle.literal_table.specs.Choices.{any_choice as any_choice_on};

use crate::Weighted;
use clause_circuits::size;
use clause_formulas::Formula;
use clause_store::Lit;
use literal_table::any_choice;
use std::alloc::{AllocError, Global};

fn is_odd(n: &u64) -> bool
    ensures { result ≡ is_odd n.now }
{
    *n % 2 == 1
}

// A chosen weight is odd.
fn any_odd(alloc: Global, choices: &[(u64, Lit)]) -> Result<Formula, AllocError>
    ensures { IfOk result (λ formula. formula ≡ any_choice_on is_odd choices.now) }
{
    any_choice(alloc, choices, |n| is_odd(n))
}

// Half of each weight.
fn halved(alloc: Global, choices: &[(u64, Lit)]) -> Result<Vec<(u64, Lit)>, AllocError>
    ensures { IfOk result (λ halves. halves.items ≡ weighed_choices half_of choices.now) }
{
    let mut halves = Vec::new(alloc);
    for choice in choices {
        halves.push((choice.0 / 2, choice.1))?;
    }
    Ok(halves)
}

// The terms of the lowest digits, so many.
fn push_digits(
    alloc: Global,
    terms: &mut Vec<Weighted>,
    more: usize,
    unit: u64,
    choices: &[(u64, Lit)],
) -> Result<(), AllocError>
    requires { unit * 2 ^ more < 2 ^ 64 }
    ensures { OnOk result (terms.new.items ≡ terms.old.items ++ digit_terms more unit choices.now) }
{
    if more == 0 {
        return Ok(());
    }
    terms.push(Weighted {
        weight: unit,
        formula: any_odd(alloc, choices)?,
    })?;
    if more == 1 {
        return Ok(());
    }
    let halves = halved(alloc, choices)?;
    push_digits(alloc, terms, more - 1, 2 * unit, halves.as_slice())
}

// A term for each choice.
fn plain_terms(alloc: Global, choices: &[(u64, Lit)]) -> Result<Vec<Weighted>, AllocError>
    ensures { IfOk result (λ terms. terms.items ≡ plain_terms choices.now) }
{
    let mut terms = Vec::new(alloc);
    for choice in choices {
        terms.push(Weighted {
            weight: choice.0,
            formula: Formula::lit(choice.1),
        })?;
    }
    Ok(terms)
}

// The greatest weight; 0 where there is none.
fn greatest(choices: &[(u64, Lit)]) -> u64
    ensures { result ≡ greatest choices.now }
{
    let mut most = 0;
    for choice in choices {
        if most < choice.0 {
            most = choice.0;
        }
    }
    most
}

/// Terms whose sum is the weight of the one that is chosen: one for each binary digit of the
/// weights.
#[tactic(auto, unfolding(crate::specs::Spread::spread_terms))]
pub fn spread(alloc: Global, choices: &[(u64, Lit)]) -> Result<Vec<Weighted>, AllocError>
    ensures { IfOk result (λ terms. terms.items ≡ spread_terms choices.now) }
{
    let top = greatest(choices);
    if top < 9223372036854775808 {
        let mut terms = Vec::new(alloc);
        push_digits(alloc, &mut terms, size(top), 1, choices)?;
        Ok(terms)
    } else {
        plain_terms(alloc, choices)
    }
}
