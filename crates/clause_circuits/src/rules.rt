//! The clauses of one gate.
ghost use Rattle.std.specs.Prelude.{◌≡◌, ◌++◌, OnOk};
ghost use Rattle.clause_store.specs.Lits.{negation};
ghost use Rattle.clause_circuits.specs.Gates.{AllClausesBelow, Partly, with_rules, headed, gate_rules};
ghost use Rattle.clause_circuits.specs.Shapes.{both, any_of, cover_rules};

use crate::gate::{Gate, Lits, Shape};
use clause_store::{ClauseList, Lit};
use std::alloc::{AllocError, Global};

/// Adds the clauses that give a literal the meaning of a gate.
pub(crate) fn add_rules(
    alloc: Global,
    clauses: &mut ClauseList,
    x: Lit,
    gate: &Gate,
) -> Result<(), AllocError>
    requires { AllClausesBelow clauses.old.vars (gate_rules x gate.now) }
    ensures ok { OnOk result (clauses.new ≡ with_rules clauses.old (gate_rules x gate.now)) }
    ensures partial { Partly clauses.old clauses.new (gate_rules x gate.now) }
{
    match &gate.shape {
        Shape::Both(a, b) => add_both(alloc, clauses, x, *a, *b),
        Shape::Never => add_any(alloc, clauses, x, &[]),
        Shape::Given(on, off) => add_given(alloc, clauses, x, on.as_slice(), off.as_slice()),
    }
}

// Adds the clauses of a gate for two.
fn add_both(
    alloc: Global,
    clauses: &mut ClauseList,
    x: Lit,
    a: Lit,
    b: Lit,
) -> Result<(), AllocError>
    requires { AllClausesBelow clauses.old.vars (gate_rules x (both a b)) }
    ensures ok { OnOk result (clauses.new ≡ with_rules clauses.old (gate_rules x (both a b))) }
    ensures partial { Partly clauses.old clauses.new (gate_rules x (both a b)) }
{
    clauses.add_headed(alloc, x, &[a.negated(), b.negated()])?;
    clauses.add_headed(alloc, x.negated(), &[a])?;
    clauses.add_headed(alloc, x.negated(), &[b])?;
    Ok(())
}

/// Adds the clauses of a gate for some literal of a list.
pub(crate) fn add_any(
    alloc: Global,
    clauses: &mut ClauseList,
    x: Lit,
    lits: &[Lit],
) -> Result<(), AllocError>
    requires { AllClausesBelow clauses.old.vars (gate_rules x (any_of lits.now)) }
    ensures ok { OnOk result (clauses.new
        ≡ with_rules clauses.old (gate_rules x (any_of lits.now))) }
    ensures partial { Partly clauses.old clauses.new (gate_rules x (any_of lits.now)) }
{
    add_cover(alloc, clauses, x, lits)?;
    clauses.add_headed(alloc, x.negated(), lits)?;
    Ok(())
}

/// Adds the clauses of its one side: the literal is true where some literal of the list is.
pub(crate) fn add_cover(
    alloc: Global,
    clauses: &mut ClauseList,
    x: Lit,
    lits: &[Lit],
) -> Result<(), AllocError>
    requires { AllClausesBelow clauses.old.vars (cover_rules x lits.now) }
    ensures ok { OnOk result (clauses.new ≡ with_rules clauses.old (cover_rules x lits.now)) }
    ensures partial { Partly clauses.old clauses.new (cover_rules x lits.now) }
{
    for lit in lits {
        clauses.add_headed(alloc, x, &[lit.negated()])?;
    }
    Ok(())
}

// Adds the clauses of a gate that is given by its clauses.
fn add_given(
    alloc: Global,
    clauses: &mut ClauseList,
    x: Lit,
    on: &[Lits],
    off: &[Lits],
) -> Result<(), AllocError>
    requires { AllClausesBelow clauses.old.vars (headed x on.now ++ headed (negation x) off.now) }
    ensures ok { OnOk result (clauses.new
        ≡ with_rules clauses.old (headed x on.now ++ headed (negation x) off.now)) }
    ensures partial { Partly clauses.old clauses.new
        (headed x on.now ++ headed (negation x) off.now) }
{
    add_side(alloc, clauses, x, on)?;
    add_side(alloc, clauses, x.negated(), off)?;
    Ok(())
}

// Adds the clauses of one of its sides.
fn add_side(
    alloc: Global,
    clauses: &mut ClauseList,
    head: Lit,
    side: &[Lits],
) -> Result<(), AllocError>
    requires { AllClausesBelow clauses.old.vars (headed head side.now) }
    ensures ok { OnOk result (clauses.new ≡ with_rules clauses.old (headed head side.now)) }
    ensures partial { Partly clauses.old clauses.new (headed head side.now) }
{
    for lits in side {
        clauses.add_headed(alloc, head, lits.as_slice())?;
    }
    Ok(())
}
