//! The clauses of a plan, and of one gate.
ghost use Rattle.std.specs.Prelude.{◌≡◌, ◌+◌, [], ◌∷◌, IfOk, OnOk};
ghost use Rattle.clause_store.specs.Lits.{AllBelow, clause_true};
ghost use Rattle.clause_circuits.specs.Growth.{Extends, DefinesLit, CoversLit};
ghost use Rattle.clause_circuits.specs.Gates.{AllClausesBelow, with_defined, clauses_from, gate_rules, Partial, lit_of, with_gates, IsSound};
ghost use Rattle.clause_circuits.specs.Shapes.{any_of, with_cover};

use crate::gate::Gate;
use crate::plan::Plan;
use crate::rules::{add_any, add_cover, add_rules};
use clause_store::{ClauseList, Lit, Var};
use std::alloc::{AllocError, Global};

/// Adds the clauses of a plan, labelled as structure, to the list that it was begun at: they define
/// its variables. After want of memory the list may have grown by some of them.
pub fn define_plan(alloc: Global, clauses: &mut ClauseList, plan: &Plan) -> Result<(), AllocError>
    requires first { plan.now.first ≡ clauses.old.vars }
    requires sound { IsSound plan.now }
    ensures ok { OnOk result (clauses.new ≡ with_gates clauses.old plan.now.gates) }
    ensures extends { Extends clauses.old clauses.new }
{
    for gate in plan.gates() {
        define(alloc, clauses, gate)?;
    }
    Ok(())
}

/// A literal that is true exactly where some literal of the list is: a plan of one gate, without
/// the plan. After want of memory the list may have grown by some of its clauses.
pub fn define_any(alloc: Global, clauses: &mut ClauseList, lits: &[Lit]) -> Result<Lit, AllocError>
    requires { AllBelow clauses.old.vars lits.now }
    ensures lit { IfOk result (λ lit. lit ≡ lit_of clauses.old.vars) }
    ensures built { OnOk result (clauses.new ≡ with_gates clauses.old (any_of lits.now ∷ [])) }
    ensures gate { IfOk result (λ lit. DefinesLit clauses.old clauses.new lit
        (λ v. clause_true v lits.now)) }
    ensures extends { Extends clauses.old clauses.new }
{
    let lit = next_lit(clauses);
    clauses.new_var()?;
    add_any(alloc, clauses, lit, lits)?;
    Ok(lit)
}

/// A literal that is true where some literal of the list is, and may be true elsewhere: one side of
/// `define_any`, for where its being false is all that counts. After want of memory the list may
/// have grown by some of its clauses.
pub fn define_cover(
    alloc: Global,
    clauses: &mut ClauseList,
    lits: &[Lit],
) -> Result<Lit, AllocError>
    requires { AllBelow clauses.old.vars lits.now }
    ensures lit { IfOk result (λ lit. lit ≡ lit_of clauses.old.vars) }
    ensures built { OnOk result (clauses.new ≡ with_cover clauses.old lits.now) }
    ensures gate { IfOk result (λ lit. CoversLit clauses.old clauses.new lit
        (λ v. clause_true v lits.now)) }
    ensures extends { Extends clauses.old clauses.new }
{
    let lit = next_lit(clauses);
    clauses.new_var()?;
    add_cover(alloc, clauses, lit, lits)?;
    Ok(lit)
}

// The literal of the variable that comes next.
fn next_lit(clauses: &ClauseList) -> Lit
    ensures { result ≡ lit_of clauses.now.vars }
{
    Lit {
        var: Var(clauses.vars()),
        positive: true,
    }
}

// One more variable, and clauses of the structure that give it the meaning of a gate.
fn define(alloc: Global, clauses: &mut ClauseList, gate: &Gate) -> Result<(), AllocError>
    requires { AllClausesBelow (clauses.old.vars + 1)
        (gate_rules (lit_of clauses.old.vars) gate.now) }
    ensures ok { OnOk result (clauses.new ≡ with_defined clauses.old
        (clauses_from (gate_rules (lit_of clauses.old.vars) gate.now))) }
    ensures partial { Partial clauses.old clauses.new
        (clauses_from (gate_rules (lit_of clauses.old.vars) gate.now)) }
{
    let lit = next_lit(clauses);
    clauses.new_var()?;
    add_rules(alloc, clauses, lit, gate)?;
    Ok(())
}
