//! The clause of a formula that is asked for: of what stands under the other sign one side is
//! enough.
ghost use Rattle.std.specs.Prelude.{◌≡◌, Some, IfOk, OnOk};
ghost use Rattle.clause_store.specs.Lits.{AllBelow};
ghost use Rattle.clause_circuits.specs.Growth.{Extends};
ghost use Rattle.clause_formulas.specs.Statements.{SaidBelow, any_statement, no};
ghost use Rattle.clause_formulas.specs.Gated.{gated, GatesBelow, Keeps};
ghost use Rattle.clause_formulas.specs.Built.{ask_in, by_cover, cover_on, covered_on};

use crate::defined::{Defined, Draft};
use crate::formula::{Formula, Node};
use crate::gates::Gates;
use crate::spread::spread_any;
use clause_circuits::define_cover;
use clause_store::{Clause, ClauseList, Lit};
use std::alloc::{AllocError, Global};

/// Adds literals to a draft of which none is true unless the formula is. Each assignment extends to
/// one where some literal is true if the formula is.
#[cycle(ask)]
pub(crate) fn ask(
    alloc: Global,
    clauses: &mut ClauseList,
    gates: &mut Gates,
    draft: &mut Draft,
    formula: &Formula,
) -> Result<(), AllocError>
    requires formula_below { SaidBelow clauses.old.vars formula.now }
    requires gates_below { GatesBelow clauses.old.vars gates.old }
    requires draft_below { AllBelow clauses.old.vars draft.old.lits }
    ensures built { OnOk result (ask_in (gated clauses.old gates.old) draft.old formula.now
        ≡ record {
          state =
              gated clauses.new gates.new;
          answer = draft.new;
        }) }
    ensures keeps { Keeps (gated clauses.old gates.old) (gated clauses.new gates.new) }
{
    match &formula.node {
        Node::Atom(lit) => draft.put(Defined::By(*lit)),
        Node::Any(parts) => ask_any(alloc, clauses, gates, draft, parts.as_slice()),
        Node::NoneOf(parts) => ask_none(alloc, clauses, gates, draft, parts.as_slice()),
    }
}

/// The same for any of a list.
#[cycle(ask)]
pub(crate) fn ask_any(
    alloc: Global,
    clauses: &mut ClauseList,
    gates: &mut Gates,
    draft: &mut Draft,
    parts: &[Formula],
) -> Result<(), AllocError>
    requires parts_below { SaidBelow clauses.old.vars (any_statement parts.now) }
    requires gates_below { GatesBelow clauses.old.vars gates.old }
    requires draft_below { AllBelow clauses.old.vars draft.old.lits }
    ensures built { OnOk result (ask_in (gated clauses.old gates.old) draft.old
        (any_statement parts.now) ≡ record {
          state =
              gated clauses.new gates.new;
          answer = draft.new;
        }) }
    ensures keeps { Keeps (gated clauses.old gates.old) (gated clauses.new gates.new) }
{
    for part in parts {
        ask(alloc, clauses, gates, draft, part)?;
    }
    Ok(())
}

// The same for none of a list.
fn ask_none(
    alloc: Global,
    clauses: &mut ClauseList,
    gates: &mut Gates,
    draft: &mut Draft,
    parts: &[Formula],
) -> Result<(), AllocError>
    requires parts_below { SaidBelow clauses.old.vars (any_statement parts.now) }
    requires gates_below { GatesBelow clauses.old.vars gates.old }
    ensures built { OnOk result (ask_in (gated clauses.old gates.old) draft.old
        (no (any_statement parts.now)) ≡ record {
          state =
              gated clauses.new gates.new;
          answer = draft.new;
        }) }
    ensures keeps { Keeps (gated clauses.old gates.old) (gated clauses.new gates.new) }
{
    let mut inner = Draft::new(alloc);
    spread_any(alloc, clauses, gates, &mut inner, parts)?;
    let value = covered(alloc, clauses, &inner)?;
    draft.put(value.reversed())
}

// A value that is true where the draft is.
fn covered(alloc: Global, clauses: &mut ClauseList, draft: &Draft) -> Result<Defined, AllocError>
    requires { AllBelow clauses.old.vars draft.now.lits }
    ensures built { IfOk result (λ value. covered_on clauses.old draft.now ≡ record {
      list =
          clauses.new;
      answer = value;
    }) }
    ensures extends { Extends clauses.old clauses.new }
{
    if draft.always() {
        return Ok(Defined::Known(true));
    }
    match Clause::new(alloc, draft.lits())? {
        None => Ok(Defined::Known(true)),
        Some(clause) => by_cover(alloc, clauses, clause.lits()),
    }
}

// A value that is true where a clause is; a new variable only for two literals and more.
fn by_cover(alloc: Global, clauses: &mut ClauseList, lits: &[Lit]) -> Result<Defined, AllocError>
    requires { AllBelow clauses.old.vars lits.now }
    ensures built { IfOk result (λ value. by_cover clauses.old (Some lits.now) ≡ record {
      list =
          clauses.new;
      answer = value;
    }) }
    ensures extends { Extends clauses.old clauses.new }
{
    match lits {
        [] => Ok(Defined::Known(false)),
        [lit] => Ok(Defined::By(*lit)),
        _ => Ok(Defined::By(cover(alloc, clauses, lits)?)),
    }
}

// A literal that is true where some literal of the list is.
fn cover(alloc: Global, clauses: &mut ClauseList, lits: &[Lit]) -> Result<Lit, AllocError>
    requires { AllBelow clauses.old.vars lits.now }
    ensures built { IfOk result (λ lit. cover_on clauses.old lits.now ≡ record {
      list =
          clauses.new;
      answer = lit;
    }) }
    ensures extends { Extends clauses.old clauses.new }
{
    let lit = define_cover(alloc, clauses, lits)?;
    Ok(lit)
}
