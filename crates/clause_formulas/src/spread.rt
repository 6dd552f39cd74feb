//! The clauses of a formula.
ghost use Rattle.std.specs.Prelude.{◌≡◌, Some, IfOk, OnOk};
ghost use Rattle.clause_store.specs.Lits.{AllBelow};
ghost use Rattle.clause_formulas.specs.Statements.{SaidBelow, any_statement};
ghost use Rattle.clause_formulas.specs.Gated.{gated, GatesBelow, Keeps};
ghost use Rattle.clause_formulas.specs.Built.{by_clause, named_in, spread_in};

use crate::defined::{Defined, Draft};
use crate::formula::{Formula, Node};
use crate::gates::{Gates, or_in};
use clause_store::{Clause, ClauseList, Lit};
use std::alloc::{AllocError, Global};

/// Adds the literals that make a formula true to a draft.
#[cycle(spread)]
pub(crate) fn spread(
    alloc: Global,
    clauses: &mut ClauseList,
    gates: &mut Gates,
    draft: &mut Draft,
    formula: &Formula,
) -> Result<(), AllocError>
    requires formula_below { SaidBelow clauses.old.vars formula.now }
    requires gates_below { GatesBelow clauses.old.vars gates.old }
    requires draft_below { AllBelow clauses.old.vars draft.old.lits }
    ensures built { OnOk result (spread_in (gated clauses.old gates.old) draft.old formula.now
        ≡ record {
          state =
              gated clauses.new gates.new;
          answer = draft.new;
        }) }
    ensures keeps { Keeps (gated clauses.old gates.old) (gated clauses.new gates.new) }
{
    match &formula.node {
        Node::Atom(lit) => draft.put(Defined::By(*lit)),
        Node::Any(parts) => spread_any(alloc, clauses, gates, draft, parts.as_slice()),
        Node::NoneOf(parts) => {
            let mut inner = Draft::new(alloc);
            spread_any(alloc, clauses, gates, &mut inner, parts.as_slice())?;
            let value = named(alloc, clauses, gates, &inner)?;
            draft.put(value.reversed())
        }
    }
}

/// The same for any of a list.
#[cycle(spread)]
pub(crate) fn spread_any(
    alloc: Global,
    clauses: &mut ClauseList,
    gates: &mut Gates,
    draft: &mut Draft,
    parts: &[Formula],
) -> Result<(), AllocError>
    requires parts_below { SaidBelow clauses.old.vars (any_statement parts.now) }
    requires gates_below { GatesBelow clauses.old.vars gates.old }
    requires draft_below { AllBelow clauses.old.vars draft.old.lits }
    ensures built { OnOk result (spread_in (gated clauses.old gates.old) draft.old
        (any_statement parts.now) ≡ record {
          state =
              gated clauses.new gates.new;
          answer = draft.new;
        }) }
    ensures keeps { Keeps (gated clauses.old gates.old) (gated clauses.new gates.new) }
{
    for part in parts {
        spread(alloc, clauses, gates, draft, part)?;
    }
    Ok(())
}

/// The value of a draft.
pub(crate) fn named(
    alloc: Global,
    clauses: &mut ClauseList,
    gates: &mut Gates,
    draft: &Draft,
) -> Result<Defined, AllocError>
    requires draft_below { AllBelow clauses.old.vars draft.now.lits }
    requires gates_below { GatesBelow clauses.old.vars gates.old }
    ensures built { IfOk result (λ value. named_in (gated clauses.old gates.old) draft.now
        ≡ record {
          state =
              gated clauses.new gates.new;
          answer = value;
        }) }
    ensures keeps { Keeps (gated clauses.old gates.old) (gated clauses.new gates.new) }
{
    if draft.always() {
        return Ok(Defined::Known(true));
    }
    match Clause::new(alloc, draft.lits())? {
        None => Ok(Defined::Known(true)),
        Some(clause) => by_clause(alloc, clauses, gates, clause.lits()),
    }
}

// The value of a clause; a new variable only for two literals and more.
fn by_clause(
    alloc: Global,
    clauses: &mut ClauseList,
    gates: &mut Gates,
    lits: &[Lit],
) -> Result<Defined, AllocError>
    requires lits_below { AllBelow clauses.old.vars lits.now }
    requires gates_below { GatesBelow clauses.old.vars gates.old }
    ensures built { IfOk result (λ value. by_clause (gated clauses.old gates.old)
        (Some lits.now) ≡ record {
          state =
              gated clauses.new gates.new;
          answer = value;
        }) }
    ensures keeps { Keeps (gated clauses.old gates.old) (gated clauses.new gates.new) }
{
    match lits {
        [] => Ok(Defined::Known(false)),
        [lit] => Ok(Defined::By(*lit)),
        _ => Ok(Defined::By(or_in(alloc, clauses, gates, lits)?)),
    }
}
