//! Sums become bits.
ghost use Rattle.std.specs.Prelude.{◌≡◌, ◌<◌, ◌^◌, IfOk};
ghost use Rattle.clause_circuits.specs.Growth.{Extends};
ghost use Rattle.clause_circuits.specs.Steps.{plan_at};
ghost use Rattle.clause_circuits.specs.Trees.{total};
ghost use Rattle.clause_circuits.specs.Built.{IsBuilt};
ghost use Rattle.criteria_totals.specs.Spellings.{AllSmall};
ghost use Rattle.criteria_totals.specs.Totals.{number_on, totals_on, tops, AllTermsBelow, IsTotals};

use crate::plan_digits;
use crate::terms::{Bits, Terms};
use crate::unary::plan_unary;
use clause_circuits::{Plan, define_plan, total};
use clause_store::{ClauseList, Lit};
use std::alloc::{AllocError, Global};

/// Bits that spell the sums of some lists, and compare from the first on as the sums do.
///
/// Each sum counts the weights of true literals; the weights of one list add up to less than 2^63.
/// Terms of weight 0 change nothing, and are better left out.
pub fn totals(alloc: Global, clauses: &mut ClauseList, lists: &[Terms]) -> Result<Bits, AllocError>
    requires in_range { AllTermsBelow clauses.old.vars lists.now }
    requires small { AllSmall (tops lists.now) }
    ensures built { IfOk result (λ bits. IsBuilt clauses.old clauses.new
        (totals_on (plan_at clauses.old) lists.now) bits.lits) }
    ensures tops { IfOk result (λ bits. bits.tops ≡ tops lists.now) }
    ensures totals { IfOk result (λ bits. IsTotals clauses.old clauses.new bits.lits lists.now) }
    ensures extends { Extends clauses.old clauses.new }
{
    let mut plan = Plan::new(alloc, clauses);
    let bits = plan_totals(alloc, &mut plan, lists)?;
    define_plan(alloc, clauses, &plan)?;
    Ok(bits)
}

// Plans the sums of some lists.
fn plan_totals(alloc: Global, plan: &mut Plan, lists: &[Terms]) -> Result<Bits, AllocError>
    requires { AllSmall (tops lists.now) }
    ensures built { IfOk result (λ bits. totals_on plan.old lists.now ≡ record {
      plan = plan.new;
      answer =
          bits.lits;
    }) }
    ensures tops { IfOk result (λ bits. bits.tops ≡ tops lists.now) }
{
    let mut lits = Vec::new(alloc);
    let mut tops = Vec::new(alloc);
    let mut added = Vec::new(alloc);
    for terms in lists {
        let terms = terms.as_slice();
        let top = total(terms);
        let bits = plan_number(alloc, plan, terms, top)?;
        lits.extend_from_slice(bits.as_slice())?;
        tops.push(top)?;
        added.push(Terms::from_slice(alloc, terms)?)?;
    }
    Ok(Bits {
        lits,
        tops,
        terms: added,
    })
}

// Plans one sum: in unary up to 64, in binary above.
fn plan_number(
    alloc: Global,
    plan: &mut Plan,
    terms: &[(u64, Lit)],
    top: u64,
) -> Result<Vec<Lit>, AllocError>
    requires top { top ≡ total terms.now }
    requires small { total terms.now < 2 ^ 63 }
    ensures { IfOk result (λ bits. number_on plan.old terms.now ≡ record {
      plan = plan.new;
      answer =
          bits.items;
    }) }
{
    if top <= 64 {
        plan_unary(alloc, plan, terms)
    } else {
        plan_digits(alloc, plan, terms)
    }
}
