//! The rules of arcs: levels rise along them.

ghost use Rattle.std.specs.Prelude.{◌≡◌, ◌+◌, ◌<◌, ◌≤◌, ◌++◌, ◌^◌, true, OnOk};
ghost use Rattle.clause_formulas.specs.Statements.{atom};
ghost use Rattle.clause_formulas.specs.Allowed.{Allows};
ghost use Rattle.level_encoding.specs.Composed.{rising, digit_row, Meets};
ghost use Rattle.level_encoding.specs.Input.{IsRight, numbers};
ghost use Rattle.level_encoding.specs.Encoding.{level, is_inside, turns, turn_start, arc_rules, arcs_rules, constraints, end};
ghost use Rattle.level_encoding.specs.Asserted.{assert_all};
ghost use Rattle.level_encoding.specs.Laws.{AllSaidBelow};
ghost use Rattle.level_encoding.specs.Plan.{IsPlan};

use crate::asserted::assert_each;
use crate::composed::add_rising;
use crate::input::{Arc, LevelInput};
use crate::plan::{Plan, level_start, level_width};
use crate::widths::is_joined;
use clause_formulas::Formula;
use clause_store::ClauseList;
use std::alloc::{AllocError, Global};

/// Whether an arc leads from a number of a component to another one.
#[tactic(auto, unfolding(crate::specs::Encoding::is_inside))]
fn is_inside(input: &LevelInput, plan: &Plan, arc: &Arc) -> bool
    requires plan { IsPlan input.now plan.now }
    requires parent { arc.now.parent < numbers input.now }
    requires child { arc.now.child < numbers input.now }
    ensures { result ≡ is_inside input.now arc.now }
{
    arc.parent != arc.child
        && is_joined(
            input,
            &plan.reached,
            arc.parent as usize,
            arc.child as usize,
        )
}

/// The parent's level is below the child's where the arc is chosen; the turns are the variables
/// from `turn` on.
fn add_level_rules(
    alloc: Global,
    input: &LevelInput,
    plan: &Plan,
    arc: &Arc,
    turn: u64,
    rules: &mut Vec<Formula>,
) -> Result<(), AllocError>
    requires right { IsRight input.now }
    requires plan { IsPlan input.now plan.now }
    requires room { end input.now < 2 ^ 64 }
    requires turns { turn + turns input.now arc.now < 2 ^ 64 }
    requires parent { arc.now.parent < numbers input.now }
    requires child { arc.now.child < numbers input.now }
    requires inside { is_inside input.now arc.now ≡ true }
    ensures { OnOk result (rules.new.items ≡ rules.old.items
        ++ rising (atom arc.now.lit) (level input.now arc.now.parent)
        (level input.now arc.now.child) (digit_row turn (turns input.now arc.now))) }
{
    let parent = level_start(input, plan, arc.parent as usize);
    let child = level_start(input, plan, arc.child as usize);
    let width = level_width(input, plan, arc.parent as usize);
    add_rising(alloc, arc.lit, parent, child, turn, width, rules)?;
    Ok(())
}

/// How many turns the comparison takes.
#[tactic(auto, unfolding(crate::specs::Encoding::turns))]
fn turns(input: &LevelInput, plan: &Plan, arc: &Arc) -> usize
    requires plan { IsPlan input.now plan.now }
    requires parent { arc.now.parent < numbers input.now }
    requires child { arc.now.child < numbers input.now }
    ensures { result ≡ turns input.now arc.now }
{
    if is_inside(input, plan, arc) {
        level_width(input, plan, arc.parent as usize).saturating_sub(1)
    } else {
        0
    }
}

/// Levels rise along an arc inside a component; no arc leads from a number to itself.
#[tactic(auto, unfolding(crate::specs::Encoding::arc_rules))]
fn add_rules(
    alloc: Global,
    input: &LevelInput,
    plan: &Plan,
    arc: &Arc,
    turn: u64,
    rules: &mut Vec<Formula>,
) -> Result<(), AllocError>
    requires right { IsRight input.now }
    requires plan { IsPlan input.now plan.now }
    requires room { end input.now < 2 ^ 64 }
    requires turns { turn + turns input.now arc.now < 2 ^ 64 }
    requires parent { arc.now.parent < numbers input.now }
    requires child { arc.now.child < numbers input.now }
    ensures { OnOk result (rules.new.items ≡ rules.old.items ++ arc_rules input.now turn arc.now) }
{
    if is_inside(input, plan, arc) {
        add_level_rules(alloc, input, plan, arc, turn, rules)?;
    } else if arc.parent == arc.child {
        rules.push(Formula::lit(arc.lit).negated())?;
    }
    Ok(())
}

// Asserts the rules of an arc, with its turns from `turn` on.
fn assert_arc(
    alloc: Global,
    input: &LevelInput,
    plan: &Plan,
    arc: &Arc,
    turn: u64,
    clauses: &mut ClauseList,
) -> Result<(), AllocError>
    requires right { IsRight input.now }
    requires plan { IsPlan input.now plan.now }
    requires room { end input.now < 2 ^ 64 }
    requires turns { turn + turns input.now arc.now < 2 ^ 64 }
    requires parent { arc.now.parent < numbers input.now }
    requires child { arc.now.child < numbers input.now }
    requires below { AllSaidBelow clauses.old.vars (arc_rules input.now turn arc.now) }
    ensures built { OnOk result
        (clauses.new ≡ assert_all clauses.old (arc_rules input.now turn arc.now)) }
    ensures more { OnOk result (clauses.old.vars ≤ clauses.new.vars) }
    ensures allows { Allows clauses.old clauses.new
        (λ asked v. Meets v (arc_rules input.now turn arc.now)) }
{
    let mut rules = Vec::new(alloc);
    add_rules(alloc, input, plan, arc, turn, &mut rules)?;
    assert_each(alloc, clauses, rules.as_slice())?;
    Ok(())
}

/// Asserts the rules of all arcs; their variables are there.
pub(crate) fn assert_arcs(
    alloc: Global,
    input: &LevelInput,
    plan: &Plan,
    clauses: &mut ClauseList,
) -> Result<(), AllocError>
    requires right { IsRight input.now }
    requires plan { IsPlan input.now plan.now }
    requires room { end input.now < 2 ^ 64 }
    requires made { end input.now ≤ clauses.old.vars }
    ensures built { OnOk result (clauses.new
        ≡ assert_all clauses.old (arcs_rules input.now (turn_start input.now) input.now.arcs)) }
    ensures more { OnOk result (clauses.old.vars ≤ clauses.new.vars) }
    ensures allows { Allows clauses.old clauses.new
        (λ asked v. Meets v (constraints input.now)) }
{
    let mut turn = plan.turns;
    for arc in input.arcs() {
        assert_arc(alloc, input, plan, arc, turn, clauses)?;
        turn += turns(input, plan, arc) as u64;
    }
    Ok(())
}

/// The variable behind the last turn.
#[tactic(auto, using(crate::proofs::RuleLaws::arc_rules_so_far))]
pub(crate) fn end_of(input: &LevelInput, plan: &Plan) -> u64
    requires right { IsRight input.now }
    requires plan { IsPlan input.now plan.now }
    requires room { end input.now < 2 ^ 64 }
    ensures { result ≡ end input.now }
{
    let mut turn = plan.turns;
    for arc in input.arcs() {
        turn += turns(input, plan, arc) as u64;
    }
    turn
}
