//! Formulas are asked for.
ghost use Rattle.std.specs.Prelude.{◌≡◌, true, OnOk, OnErr};
ghost use Rattle.clause_store.specs.declared.Label.TheVariants.{Demand as DemandOf};
ghost use Rattle.clause_store.specs.Lits.{AllBelow};
ghost use Rattle.clause_circuits.specs.Growth.{Says, where_asked};
ghost use Rattle.clause_formulas.specs.Statements.{SaidBelow, any_statement, eval};
ghost use Rattle.clause_formulas.specs.Gated.{gated, GatesBelow};
ghost use Rattle.clause_formulas.specs.Built.{with_draft, assert_in, assert_on, claimed, demand_in, demand_all_in, demands_true};
ghost use Rattle.clause_formulas.specs.Allowed.{Allows, AllowsIn, SaysIn};

use crate::asked::ask_any;
use crate::defined::{Defined, Draft};
use crate::formula::{Formula, Node};
use crate::gates::Gates;
use crate::values::define_in;
use clause_store::{Clause, ClauseList, Label};
use std::alloc::{AllocError, Global};

/// Adds clauses with a label that hold exactly where the formula is true.
///
/// An all-of is asserted part by part, and an any-of as one clause. Gates that were made serve
/// again, and new ones are kept. After want of memory the list may have grown by some of the
/// clauses.
pub fn assert_in(
    alloc: Global,
    clauses: &mut ClauseList,
    gates: &mut Gates,
    formula: &Formula,
    label: Label,
) -> Result<(), AllocError>
    requires formula_below { SaidBelow clauses.old.vars formula.now }
    requires gates_below { GatesBelow clauses.old.vars gates.old }
    ensures built { OnOk result (assert_in label (gated clauses.old gates.old) true formula.now
        ≡ gated clauses.new gates.new) }
    ensures says { OnOk result (SaysIn (gated clauses.old gates.old) (gated clauses.new gates.new)
        (where_asked label (λ v. eval v formula.now))) }
    ensures allows { AllowsIn (gated clauses.old gates.old) (gated clauses.new gates.new)
        (λ asked v. where_asked label (λ w. eval w formula.now) asked v ≡ true) }
{
    claim(alloc, clauses, gates, true, formula, label)
}

/// The same over gates of its own.
pub fn assert(
    alloc: Global,
    clauses: &mut ClauseList,
    formula: &Formula,
    label: Label,
) -> Result<(), AllocError>
    requires { SaidBelow clauses.old.vars formula.now }
    ensures built { OnOk result (assert_on label clauses.old true formula.now ≡ clauses.new) }
    ensures says { OnOk result (Says clauses.old clauses.new
        (where_asked label (λ v. eval v formula.now))) }
    ensures allows { Allows clauses.old clauses.new
        (λ asked v. where_asked label (λ w. eval w formula.now) asked v ≡ true) }
{
    let mut gates = Gates::new(alloc);
    assert_in(alloc, clauses, &mut gates, formula, label)
}

/// Defines the formula's value, and adds the clause of this value alone for a demand. A demand that
/// always holds gets no clause, and one that never does the empty clause. After want of memory the
/// list may have grown by definitions.
pub fn demand_in(
    alloc: Global,
    clauses: &mut ClauseList,
    gates: &mut Gates,
    formula: &Formula,
    id: u64,
) -> Result<(), AllocError>
    requires formula_below { SaidBelow clauses.old.vars formula.now }
    requires gates_below { GatesBelow clauses.old.vars gates.old }
    ensures built { OnOk result (demand_in (gated clauses.old gates.old) formula.now id
        ≡ gated clauses.new gates.new) }
    ensures says { OnOk result (SaysIn (gated clauses.old gates.old) (gated clauses.new gates.new)
        (where_asked (DemandOf id) (λ v. eval v formula.now))) }
    ensures allows { AllowsIn (gated clauses.old gates.old) (gated clauses.new gates.new)
        (λ asked v. where_asked (DemandOf id) (λ w. eval w formula.now) asked v ≡ true) }
{
    let value = define_in(alloc, clauses, gates, formula)?;
    let mut draft = Draft::new(alloc);
    draft.put(value)?;
    add_draft(alloc, clauses, &draft, Label::Demand(id))
}

/// Demands with the ids 0, 1, 2 and so on. After want of memory the list may have grown by some of
/// them.
pub fn demand_all_in(
    alloc: Global,
    clauses: &mut ClauseList,
    gates: &mut Gates,
    formulas: &[Formula],
) -> Result<(), AllocError>
    requires formulas_below { SaidBelow clauses.old.vars (any_statement formulas.now) }
    requires gates_below { GatesBelow clauses.old.vars gates.old }
    ensures built { OnOk result (demand_all_in (gated clauses.old gates.old) 0 formulas.now
        ≡ gated clauses.new gates.new) }
    ensures says { OnOk result (SaysIn (gated clauses.old gates.old) (gated clauses.new gates.new)
        (λ asked v. demands_true asked v 0 formulas.now)) }
    ensures allows { AllowsIn (gated clauses.old gates.old) (gated clauses.new gates.new)
        (λ asked v. demands_true asked v 0 formulas.now ≡ true) }
{
    for (i, formula) in formulas.iter().enumerate() {
        demand_in(alloc, clauses, gates, formula, i as u64)?;
    }
    Ok(())
}

// Adds clauses that make a formula true, or false.
#[cycle(claim)]
fn claim(
    alloc: Global,
    clauses: &mut ClauseList,
    gates: &mut Gates,
    sign: bool,
    formula: &Formula,
    label: Label,
) -> Result<(), AllocError>
    requires formula_below { SaidBelow clauses.old.vars formula.now }
    requires gates_below { GatesBelow clauses.old.vars gates.old }
    ensures built { OnOk result (assert_in label (gated clauses.old gates.old) sign formula.now
        ≡ gated clauses.new gates.new) }
    ensures allows { AllowsIn (gated clauses.old gates.old) (gated clauses.new gates.new)
        (λ asked v. where_asked label (λ w. claimed sign (eval w formula.now)) asked v ≡ true) }
{
    match &formula.node {
        Node::Atom(lit) => {
            let mut draft = Draft::new(alloc);
            draft.put(Defined::By(if sign { *lit } else { lit.negated() }))?;
            add_draft(alloc, clauses, &draft, label)
        }
        Node::Any(parts) => claim_any(alloc, clauses, gates, sign, parts.as_slice(), label),
        Node::NoneOf(parts) => claim_any(alloc, clauses, gates, !sign, parts.as_slice(), label),
    }
}

// The same for any of a list.
#[cycle(claim)]
fn claim_any(
    alloc: Global,
    clauses: &mut ClauseList,
    gates: &mut Gates,
    sign: bool,
    parts: &[Formula],
    label: Label,
) -> Result<(), AllocError>
    requires parts_below { SaidBelow clauses.old.vars (any_statement parts.now) }
    requires gates_below { GatesBelow clauses.old.vars gates.old }
    ensures built { OnOk result (assert_in label (gated clauses.old gates.old) sign
        (any_statement parts.now) ≡ gated clauses.new gates.new) }
    ensures allows { AllowsIn (gated clauses.old gates.old) (gated clauses.new gates.new)
        (λ asked v. where_asked label (λ w. claimed sign (eval w (any_statement parts.now))) asked v
        ≡ true) }
{
    if sign {
        let mut draft = Draft::new(alloc);
        ask_any(alloc, clauses, gates, &mut draft, parts)?;
        return add_draft(alloc, clauses, &draft, label);
    }
    for part in parts {
        claim(alloc, clauses, gates, false, part, label)?;
    }
    Ok(())
}

// Adds the clause of a draft, if it doesn't always hold. After an error the list is as it was.
fn add_draft(
    alloc: Global,
    clauses: &mut ClauseList,
    draft: &Draft,
    label: Label,
) -> Result<(), AllocError>
    requires { AllBelow clauses.old.vars draft.now.lits }
    ensures built { OnOk result (clauses.new ≡ with_draft clauses.old label draft.now) }
    ensures err { OnErr result (clauses.new ≡ clauses.old) }
{
    if draft.always() {
        return Ok(());
    }
    if let Some(clause) = Clause::new(alloc, draft.lits())? {
        clauses.add(clause, label)?;
    }
    Ok(())
}
