//! Unary sums: a balanced tree of merges of sorted lists.
ghost use Rattle.std.specs.Prelude.{◌≡◌, replicate, IfOk};
ghost use Rattle.clause_circuits.specs.Trees.{halved};
ghost use Rattle.criteria_totals.specs.Unary.{unary_on, unary_bits_on};

use crate::merges::merge;
use clause_circuits::Plan;
use clause_store::Lit;
use std::alloc::{AllocError, Global};

/// Plans the sum of the weights of true literals in unary: its bits, the highest first, as many as
/// the weights' sum.
pub(crate) fn plan_unary(
    alloc: Global,
    plan: &mut Plan,
    terms: &[(u64, Lit)],
) -> Result<Vec<Lit>, AllocError>
    ensures { IfOk result (λ bits. unary_bits_on plan.old terms.now ≡ record {
      plan =
          plan.new;
      answer = bits.items;
    }) }
{
    let mut bits = unary_tree(alloc, plan, terms)?;
    bits.reverse();
    Ok(bits)
}

// The literals of a sum, that for the lowest number first.
fn unary_tree(alloc: Global, plan: &mut Plan, terms: &[(u64, Lit)]) -> Result<Vec<Lit>, AllocError>
    ensures { IfOk result (λ lits. unary_on plan.old (halved terms.now) ≡ record {
      plan =
          plan.new;
      answer = lits.items;
    }) }
{
    match terms {
        [] => Ok(Vec::new(alloc)),
        [term] => {
            let lits = repeated(alloc, term.0, term.1)?;
            Ok(lits)
        }
        _ => {
            let (front, back) = terms.split_at(terms.len() / 2);
            let a = unary_tree(alloc, plan, front)?;
            let b = unary_tree(alloc, plan, back)?;
            let lits = merge(alloc, plan, a.as_slice(), b.as_slice())?;
            Ok(lits)
        }
    }
}

fn repeated(alloc: Global, count: u64, lit: Lit) -> Result<Vec<Lit>, AllocError>
    ensures { IfOk result (λ lits. lits.items ≡ replicate count lit) }
{
    let mut lits = Vec::new(alloc);
    for _i in 0..count {
        lits.push(lit)?;
    }
    Ok(lits)
}
