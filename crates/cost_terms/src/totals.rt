//! Weighted formulas become terms, and their sums bits.
ghost use Rattle.std.specs.Prelude.{◌≡◌, ◌++◌, IfOk, OnOk};
ghost use Rattle.clause_circuits.specs.Growth.{Extends};
ghost use Rattle.clause_formulas.specs.Drafts.{DefinedBelow};
ghost use Rattle.clause_formulas.specs.Gated.{gated, GatesBelow, Keeps};
ghost use Rattle.clause_formulas.specs.Statements.{SaidBelow};
ghost use Rattle.criteria_totals.specs.Spellings.{AllSmall};
ghost use Rattle.cost_terms.specs.Built.{define_totals_on};
ghost use Rattle.cost_terms.specs.Weighed.{WeighedBelow, AllWeighedBelow, tops_said, term_on, one_in, terms_in, lists_in, lists_on, AreTotals};

use crate::weighted::Weighted;
use clause_formulas::{Defined, Gates, define_in, literal};
use clause_store::{ClauseList, Lit};
use criteria_totals::{Bits, Terms, totals};
use plain_data::List;
use std::alloc::{AllocError, Global};

/// Bits that spell the sums of some lists of weighted formulas, and compare from the first on as
/// the sums do. The weights of one list add up to less than 2^63.
pub fn define_totals(
    alloc: Global,
    clauses: &mut ClauseList,
    lists: &[List<Weighted>],
) -> Result<Bits, AllocError>
    requires in_range { AllWeighedBelow clauses.old.vars lists.now }
    requires small { AllSmall (tops_said lists.now) }
    ensures built { IfOk result (λ bits. define_totals_on clauses.old lists.now ≡ record {
      list =
          clauses.new;
      answer = bits;
    }) }
    ensures totals { IfOk result (λ bits. AreTotals clauses.old clauses.new bits.lits bits.tops lists.now) }
    ensures extends { Extends clauses.old clauses.new }
{
    let terms = lists_of(alloc, clauses, lists)?;
    totals(alloc, clauses, terms.as_slice())
}

// The terms of each list, over gates of their own.
fn lists_of(
    alloc: Global,
    clauses: &mut ClauseList,
    lists: &[List<Weighted>],
) -> Result<Vec<Terms>, AllocError>
    requires { AllWeighedBelow clauses.old.vars lists.now }
    ensures built { IfOk result (λ terms. lists_on clauses.old lists.now ≡ record {
      list =
          clauses.new;
      answer = terms.items;
    }) }
    ensures extends { Extends clauses.old clauses.new }
{
    let mut gates = Gates::new(alloc);
    lists_in(alloc, clauses, &mut gates, lists)
}

// The terms of each list. Gates that were made serve again.
fn lists_in(
    alloc: Global,
    clauses: &mut ClauseList,
    gates: &mut Gates,
    lists: &[List<Weighted>],
) -> Result<Vec<Terms>, AllocError>
    requires lists_below { AllWeighedBelow clauses.old.vars lists.now }
    requires gates_below { GatesBelow clauses.old.vars gates.old }
    ensures built { IfOk result (λ terms. lists_in (gated clauses.old gates.old) lists.now
        ≡ record {
          state =
              gated clauses.new gates.new;
          answer = terms.items;
        }) }
    ensures keeps { Keeps (gated clauses.old gates.old) (gated clauses.new gates.new) }
{
    let mut terms = Vec::new(alloc);
    for list in lists {
        terms.push(terms_of(alloc, clauses, gates, list.as_slice())?)?;
    }
    Ok(terms)
}

// The terms of one list.
fn terms_of(
    alloc: Global,
    clauses: &mut ClauseList,
    gates: &mut Gates,
    weighted: &[Weighted],
) -> Result<Terms, AllocError>
    requires weighted_below { WeighedBelow clauses.old.vars weighted.now }
    requires gates_below { GatesBelow clauses.old.vars gates.old }
    ensures built { IfOk result (λ terms. terms_in (gated clauses.old gates.old) weighted.now
        ≡ record {
          state =
              gated clauses.new gates.new;
          answer = terms;
        }) }
    ensures keeps { Keeps (gated clauses.old gates.old) (gated clauses.new gates.new) }
{
    let mut terms = Vec::new(alloc);
    for one in weighted {
        if let Some(term) = term_of(alloc, clauses, gates, one)? {
            terms.push(term)?;
        }
    }
    Ok(Terms::from_vec(terms))
}

// The term of one formula, unless it is never true.
fn term_of(
    alloc: Global,
    clauses: &mut ClauseList,
    gates: &mut Gates,
    one: &Weighted,
) -> Result<Option<(u64, Lit)>, AllocError>
    requires formula_below { SaidBelow clauses.old.vars one.now.formula }
    requires gates_below { GatesBelow clauses.old.vars gates.old }
    ensures built { IfOk result (λ term. one_in (gated clauses.old gates.old) one.now ≡ record {
      state =
          gated clauses.new gates.new;
      answer = term;
    }) }
    ensures keeps { Keeps (gated clauses.old gates.old) (gated clauses.new gates.new) }
{
    let value = define_in(alloc, clauses, gates, &one.formula)?;
    term_for(alloc, clauses, one.weight, value)
}

// The term of a value.
fn term_for(
    alloc: Global,
    clauses: &mut ClauseList,
    weight: u64,
    value: Defined,
) -> Result<Option<(u64, Lit)>, AllocError>
    requires { DefinedBelow clauses.old.vars value }
    ensures built { IfOk result (λ term. term_on clauses.old weight value ≡ record {
      list =
          clauses.new;
      answer = term;
    }) }
    ensures extends { Extends clauses.old clauses.new }
{
    match value {
        Defined::Known(false) => Ok(None),
        Defined::Known(true) => Ok(Some((weight, literal(alloc, clauses, value)?))),
        Defined::By(_) => Ok(Some((weight, literal(alloc, clauses, value)?))),
    }
}
