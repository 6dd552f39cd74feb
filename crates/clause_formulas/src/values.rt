//! Formulas get values.
ghost use Rattle.std.specs.Prelude.{◌≡◌, IfOk};
ghost use Rattle.clause_circuits.specs.Growth.{Extends};
ghost use Rattle.clause_formulas.specs.Statements.{SaidBelow, any_statement, eval};
ghost use Rattle.clause_formulas.specs.Drafts.{defined_true, DefinedBelow};
ghost use Rattle.clause_formulas.specs.Gated.{gated, GatesBelow, Keeps};
ghost use Rattle.clause_formulas.specs.Values.{DefinesValue, DefinesIn, DefinesValues};
ghost use Rattle.clause_formulas.specs.Built.{define_in, define_all_in, define_on, literal_on};

use crate::defined::{Defined, Draft};
use crate::formula::Formula;
use crate::gates::{Gates, or};
use crate::spread::{named, spread};
use clause_store::{ClauseList, Lit};
use std::alloc::{AllocError, Global};

/// A value that is true exactly where the formula is. Gates that were made serve again, and new
/// ones are kept. After want of memory the list may have grown by definitions.
pub fn define_in(
    alloc: Global,
    clauses: &mut ClauseList,
    gates: &mut Gates,
    formula: &Formula,
) -> Result<Defined, AllocError>
    requires formula_below { SaidBelow clauses.old.vars formula.now }
    requires gates_below { GatesBelow clauses.old.vars gates.old }
    ensures built { IfOk result (λ value. define_in (gated clauses.old gates.old) formula.now
        ≡ record {
          state =
              gated clauses.new gates.new;
          answer = value;
        }) }
    ensures value { IfOk result (λ value. DefinesIn (gated clauses.old gates.old)
        (gated clauses.new gates.new) value (λ v. eval v formula.now)) }
    ensures keeps { Keeps (gated clauses.old gates.old) (gated clauses.new gates.new) }
{
    let mut draft = Draft::new(alloc);
    spread(alloc, clauses, gates, &mut draft, formula)?;
    named(alloc, clauses, gates, &draft)
}

/// The values of formulas, in their order. After want of memory the list may have grown by
/// definitions.
pub fn define_all_in(
    alloc: Global,
    clauses: &mut ClauseList,
    gates: &mut Gates,
    formulas: &[Formula],
) -> Result<Vec<Defined>, AllocError>
    requires formulas_below { SaidBelow clauses.old.vars (any_statement formulas.now) }
    requires gates_below { GatesBelow clauses.old.vars gates.old }
    ensures built { IfOk result (λ values. define_all_in (gated clauses.old gates.old) formulas.now
        ≡ record {
          state =
              gated clauses.new gates.new;
          answer = values.items;
        }) }
    ensures values { IfOk result (λ values. DefinesValues (gated clauses.old gates.old)
        (gated clauses.new gates.new) values.items formulas.now) }
    ensures keeps { Keeps (gated clauses.old gates.old) (gated clauses.new gates.new) }
{
    let mut values = Vec::new(alloc);
    for formula in formulas {
        values.push(define_in(alloc, clauses, gates, formula)?)?;
    }
    Ok(values)
}

/// A value that is true exactly where the formula is, over gates of its own. After want of memory
/// the list may have grown by definitions.
pub fn define(
    alloc: Global,
    clauses: &mut ClauseList,
    formula: &Formula,
) -> Result<Defined, AllocError>
    requires { SaidBelow clauses.old.vars formula.now }
    ensures built { IfOk result (λ value. define_on clauses.old formula.now ≡ record {
      list =
          clauses.new;
      answer = value;
    }) }
    ensures value { IfOk result (λ value. DefinesValue clauses.old clauses.new value
        (λ v. eval v formula.now)) }
    ensures extends { Extends clauses.old clauses.new }
{
    let mut gates = Gates::new(alloc);
    define_in(alloc, clauses, &mut gates, formula)
}

/// A literal with a value; a constant gets a variable that a clause fixes.
pub fn literal(alloc: Global, clauses: &mut ClauseList, value: Defined) -> Result<Lit, AllocError>
    requires { DefinedBelow clauses.old.vars value }
    ensures built { IfOk result (λ lit. literal_on clauses.old value ≡ record {
      list =
          clauses.new;
      answer = lit;
    }) }
    ensures value { IfOk result (λ lit. DefinesValue clauses.old clauses.new (Defined.By lit)
        (λ v. defined_true v value)) }
    ensures extends { Extends clauses.old clauses.new }
{
    match value {
        Defined::By(lit) => Ok(lit),
        Defined::Known(holds) => {
            let off = or(alloc, clauses, &[])?;
            Ok(if holds { off.negated() } else { off })
        }
    }
}
