//! The rules of nodes: an arc leads to each that is no root.

ghost use Rattle.std.specs.Prelude.{◌≡◌, ◌<◌, ◌≤◌, ◌++◌, ◌∷◌, IfOk, OnOk, map};
ghost use Rattle.std.specs.List.{flat_map};
ghost use Rattle.clause_formulas.specs.Statements.{atom, any_statement, opposite};
ghost use Rattle.clause_formulas.specs.Allowed.{Allows};
ghost use Rattle.level_encoding.specs.Composed.{Meets};
ghost use Rattle.level_encoding.specs.Input.{IsRight, numbers, node, is_root_number};
ghost use Rattle.level_encoding.specs.Encoding.{numbers_below, node_rules, constraints, end};
ghost use Rattle.level_encoding.specs.Asserted.{assert_all};
ghost use Rattle.level_encoding.specs.Plan.{IsPlan};

use crate::asserted::assert_each;
use crate::input::{Arc, LevelInput};
use crate::plan::Plan;
use clause_formulas::Formula;
use clause_store::ClauseList;
use std::alloc::{AllocError, Global};

#[tactic(auto, unfolding(crate::specs::Input::is_root_number))]
fn is_root(input: &LevelInput, i: u64) -> bool
    ensures { result ≡ is_root_number input.now i }
{
    input.roots().iter().any(|root| *root == i)
}

/// The literal of a number.
#[tactic(auto, unfolding(crate::specs::Input::node))]
fn node(input: &LevelInput, i: usize) -> Formula
    requires { i < numbers input.now }
    ensures { result ≡ node input.now i }
{
    Formula::lit(input.nodes()[i])
}

/// The first formula is false, or some arc is chosen.
fn unless_chosen(first: Formula, arcs: &[Arc], alloc: Global) -> Result<Formula, AllocError>
    ensures { IfOk result (λ f. f ≡ any_statement
        (opposite first ∷ map (λ a. atom a.lit) arcs.now)) }
{
    let mut cases = Vec::new(alloc);
    cases.push(first.negated())?;
    for arc in arcs {
        cases.push(Formula::lit(arc.lit))?;
    }
    Ok(Formula::any(cases))
}

#[tactic(auto, unfolding(crate::specs::Encoding::node_rules))]
fn add_rules(
    alloc: Global,
    input: &LevelInput,
    plan: &Plan,
    i: usize,
    rules: &mut Vec<Formula>,
) -> Result<(), AllocError>
    requires plan { IsPlan input.now plan.now }
    requires number { i < numbers input.now }
    ensures { OnOk result (rules.new.items ≡ rules.old.items ++ node_rules input.now i) }
{
    if !is_root(input, i as u64) {
        rules.push(unless_chosen(node(input, i), plan.arriving[i].arcs(), alloc)?)?;
    }
    Ok(())
}

// Asserts the rules of a node.
fn assert_node(
    alloc: Global,
    input: &LevelInput,
    plan: &Plan,
    i: usize,
    clauses: &mut ClauseList,
) -> Result<(), AllocError>
    requires right { IsRight input.now }
    requires plan { IsPlan input.now plan.now }
    requires number { i < numbers input.now }
    requires made { end input.now ≤ clauses.old.vars }
    ensures built { OnOk result (clauses.new ≡ assert_all clauses.old (node_rules input.now i)) }
    ensures more { OnOk result (clauses.old.vars ≤ clauses.new.vars) }
    ensures allows { Allows clauses.old clauses.new (λ asked v. Meets v (node_rules input.now i)) }
{
    let mut rules = Vec::new(alloc);
    add_rules(alloc, input, plan, i, &mut rules)?;
    assert_each(alloc, clauses, rules.as_slice())?;
    Ok(())
}

/// Asserts the rules of all nodes; the variables are there.
#[tactic(auto, using(crate::proofs::RuleLaws::node_rules_so_far))]
pub(crate) fn assert_nodes(
    alloc: Global,
    input: &LevelInput,
    plan: &Plan,
    clauses: &mut ClauseList,
) -> Result<(), AllocError>
    requires right { IsRight input.now }
    requires plan { IsPlan input.now plan.now }
    requires made { end input.now ≤ clauses.old.vars }
    ensures built { OnOk result (clauses.new
        ≡ assert_all clauses.old (flat_map (node_rules input.now)
        (numbers_below (numbers input.now)))) }
    ensures more { OnOk result (clauses.old.vars ≤ clauses.new.vars) }
    ensures allows { Allows clauses.old clauses.new
        (λ asked v. Meets v (constraints input.now)) }
{
    for i in 0..input.size() {
        assert_node(alloc, input, plan, i, clauses)?;
    }
    Ok(())
}
