//! Levels and paths as clauses.
ghost use Rattle.std.specs.Prelude.{◌≡◌, ◌+◌, ◌*◌, ◌<◌, ◌^◌, ◌≤◌, length, IfOk, IfSome, IfNone, IsTrue, OnOk};
ghost use Rattle.std.specs.List.{All};
ghost use Rattle.clause_formulas.specs.Allowed.{Allows};
ghost use Rattle.level_encoding.specs.Input.{IsRight, numbers, input_of};
ghost use Rattle.level_encoding.specs.Encoding.{paths_of, end};
ghost use Rattle.level_encoding.specs.Asserted.{levels_on};
ghost use Rattle.level_encoding.specs.Laws.{KeepsLevels, IsSound};
ghost use Rattle.level_encoding.specs.Plan.{IsPlan};

use crate::arc_rules::{assert_arcs, end_of};
use crate::asserted::add_vars;
use crate::input::{Arc, LevelInput};
use crate::node_rules::assert_nodes;
use crate::path_rules::{assert_paths, way};
use crate::plan::{Plan, make_plan};
use clause_store::{ClauseList, Lit};
use std::alloc::{AllocError, Global};

/// Adds clauses that keep the chosen arcs free of cycles and the chosen nodes founded, and answers
/// a literal for each asked pair that says whether chosen arcs lead from the first to the second:
/// None where no arcs could.
///
/// Numbers are places in `nodes`, whose literals choose them. The promises on cycles, founded nodes
/// and paths are of models in which a chosen arc's parent is chosen. New variables are at most two
/// for each pair of numbers and one for each arc and number; where with the old ones they could be
/// 2^63, as where there are 2^32 numbers, there is no memory for them. After want of memory the
/// list may have grown by some of them and some of the clauses.
pub fn levels(
    alloc: Global,
    clauses: &mut ClauseList,
    nodes: &[Lit],
    roots: &[u64],
    arcs: &[Arc],
    asked: &[(u64, u64)],
) -> Result<Vec<Option<Lit>>, AllocError>
    requires right { IsRight (input_of nodes.now roots.now arcs.now asked.now clauses.old.vars) }
    requires asked { All (λ pair. (pair.0 < length nodes.now)
        × (pair.1 < length nodes.now)) asked.now }
    ensures built { OnOk result (let s =
        input_of nodes.now roots.now arcs.now asked.now clauses.old.vars in
        clauses.new ≡ levels_on s clauses.old) }
    ensures paths { IfOk result (λ paths. let s =
        input_of nodes.now roots.now arcs.now asked.now clauses.old.vars in
        paths.items ≡ paths_of s) }
    ensures levels { IfOk result (λ paths. let s =
        input_of nodes.now roots.now arcs.now asked.now clauses.old.vars in
        KeepsLevels s clauses.old clauses.new paths.items) }
    ensures allows { let s = input_of nodes.now roots.now arcs.now asked.now clauses.old.vars in
        Allows clauses.old clauses.new (λ asked v. IsSound s v) }
{
    let input = LevelInput::new(nodes, roots, arcs, asked, clauses.vars());
    if !has_room(&input) {
        return Err(AllocError);
    }
    let plan = make_plan(alloc, &input)?;
    let paths = paths_of(alloc, &input, &plan)?;
    assert_input(alloc, &input, &plan, clauses)?;
    Ok(paths)
}

// Whether the variables have numbers, by the bound on how many there can be.
#[tactic(auto, using(crate::proofs::Room::end_fits))]
fn has_room(input: &LevelInput) -> bool
    ensures few { IsTrue result → numbers input.now < 2 ^ 32 }
    ensures room { IsTrue result → end input.now < 2 ^ 63 }
    ensures enough { numbers input.now < 2 ^ 32 → input.now.first
        + 2 * (numbers input.now * numbers input.now)
        + length input.now.arcs * numbers input.now < 2 ^ 63 → IsTrue result }
{
    let numbers = input.size() as u64;
    numbers < 1 << 32 && most(input.first(), numbers, input.arcs().len() as u64).is_some()
}

// How many variables there can be: None for 2^63 and more.
fn most(first: u64, numbers: u64, arcs: u64) -> Option<u64>
    ensures some { IfSome result (λ most. (most ≡ first + 2 * (numbers * numbers) + arcs * numbers)
        × (most < 2 ^ 63)) }
    ensures none { IfNone result (2 ^ 63 ≤ first + 2 * (numbers * numbers) + arcs * numbers) }
{
    let pairs = numbers.checked_mul(numbers)?;
    let twice = pairs.checked_mul(2)?;
    let turns = arcs.checked_mul(numbers)?;
    let most = first.checked_add(twice)?.checked_add(turns)?;
    if most < 1 << 63 { Some(most) } else { None }
}

// Makes the variables, and asserts all rules.
fn assert_input(
    alloc: Global,
    input: &LevelInput,
    plan: &Plan,
    clauses: &mut ClauseList,
) -> Result<(), AllocError>
    requires right { IsRight input.now }
    requires plan { IsPlan input.now plan.now }
    requires room { end input.now < 2 ^ 63 }
    requires first { input.now.first ≡ clauses.old.vars }
    ensures built { OnOk result (clauses.new ≡ levels_on input.now clauses.old) }
    ensures allows { Allows clauses.old clauses.new (λ asked v. IsSound input.now v) }
{
    add_vars(clauses, end_of(input, plan) - clauses.vars())?;
    assert_arcs(alloc, input, plan, clauses)?;
    assert_nodes(alloc, input, plan, clauses)?;
    assert_paths(alloc, input, plan, clauses)?;
    Ok(())
}

// The literal of each asked pair.
#[tactic(auto, unfolding(crate::specs::Encoding::paths_of))]
fn paths_of(alloc: Global, input: &LevelInput, plan: &Plan) -> Result<Vec<Option<Lit>>, AllocError>
    requires plan { IsPlan input.now plan.now }
    requires asked { All (λ pair. (pair.0 < numbers input.now) × (pair.1 < numbers input.now))
        input.now.asked }
    ensures { IfOk result (λ paths. paths.items ≡ paths_of input.now) }
{
    let mut paths = Vec::new(alloc);
    for pair in input.asked() {
        paths.push(way(input, plan, pair.1 as usize, pair.0 as usize))?;
    }
    Ok(paths)
}
