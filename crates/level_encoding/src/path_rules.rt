//! The rules of paths: one leads on exactly where some arc begins it.

ghost use Rattle.std.specs.Prelude.{◌≡◌, ◌<◌, ◌≤◌, ◌++◌, ◌∷◌, [], IfOk, OnOk, map, if◌then◌else◌};
ghost use Rattle.std.specs.List.{All, flat_map};
ghost use Rattle.clause_formulas.specs.Statements.{any_statement, opposite};
ghost use Rattle.clause_formulas.specs.Allowed.{Allows};
ghost use Rattle.level_encoding.specs.Composed.{Meets};
ghost use Rattle.level_encoding.specs.Input.{IsRight, numbers, literal_at};
ghost use Rattle.level_encoding.specs.Encoding.{numbers_below, leads, arcs_leaving, begins_path, way_rules, path_rules, way, path, constraints, end};
ghost use Rattle.level_encoding.specs.Towards.{may_begin, arcs_towards, way_rules_over};
ghost use Rattle.level_encoding.specs.Asserted.{assert_all};
ghost use Rattle.level_encoding.specs.Plan.{IsPlan};

use crate::asserted::assert_each;
use crate::composed::never;
use crate::input::{Arc, LevelInput};
use crate::plan::Plan;
use clause_formulas::Formula;
use clause_store::{ClauseList, Lit};
use std::alloc::{AllocError, Global};

/// A literal that may be missing is true.
fn literal(alloc: Global, lit: Option<Lit>) -> Formula
    ensures { result ≡ literal_at lit }
{
    match lit {
        Some(lit) => Formula::lit(lit),
        None => never(alloc),
    }
}

/// The literal that says whether a path leads from `p` to `q`, where arcs lead there at all.
pub(crate) fn way(input: &LevelInput, plan: &Plan, q: usize, p: usize) -> Option<Lit>
    requires plan { IsPlan input.now plan.now }
    requires target { q < numbers input.now }
    requires number { p < numbers input.now }
    ensures { result ≡ way input.now q p }
{
    plan.ways[q].at(p)
}

/// A path leads from `p` to `q`.
fn path(alloc: Global, input: &LevelInput, plan: &Plan, p: usize, q: usize) -> Formula
    requires plan { IsPlan input.now plan.now }
    requires target { q < numbers input.now }
    requires number { p < numbers input.now }
    ensures { result ≡ path input.now p q }
{
    literal(alloc, way(input, plan, q, p))
}

/// An arc begins a path to `q`.
#[tactic(auto, unfolding(crate::specs::Encoding::begins_path))]
fn begins(
    alloc: Global,
    input: &LevelInput,
    plan: &Plan,
    q: usize,
    arc: &Arc,
) -> Result<Formula, AllocError>
    requires plan { IsPlan input.now plan.now }
    requires target { q < numbers input.now }
    requires child { arc.now.child < numbers input.now }
    ensures { IfOk result (λ f. f ≡ begins_path input.now q arc.now) }
{
    if arc.child == q as u64 {
        Ok(Formula::lit(arc.lit))
    } else {
        Formula::both(
            alloc,
            Formula::lit(arc.lit),
            path(alloc, input, plan, arc.child as usize, q),
        )
    }
}

/// The arcs that lead away from `p`.
#[tactic(auto, using(crate::proofs::RuleLaws::arcs_from_one))]
fn arcs_from<'a>(input: &LevelInput, plan: &'a Plan, p: usize) -> &'a [Arc]
    requires right { IsRight input.now }
    requires plan { IsPlan input.now plan.now }
    requires number { p < numbers input.now }
    ensures arcs { result.now ≡ arcs_leaving input.now p }
    ensures within { All (λ a. a.child < numbers input.now) result.now }
{
    plan.leaving[p].arcs()
}

/// Whether `q` is a target, and arcs lead from `p` to it.
#[tactic(auto, using(crate::proofs::RuleLaws::way_or_none))]
fn has_way(input: &LevelInput, plan: &Plan, q: usize, p: usize) -> bool
    requires plan { IsPlan input.now plan.now }
    requires target { q < numbers input.now }
    requires number { p < numbers input.now }
    ensures { result ≡ leads input.now q p }
{
    way(input, plan, q, p).is_some()
}

/// Whether the arc leads to `q`, or to where arcs lead on to it.
#[tactic(auto, unfolding(crate::specs::Towards::may_begin))]
fn may_begin(input: &LevelInput, plan: &Plan, q: usize, arc: &Arc) -> bool
    requires plan { IsPlan input.now plan.now }
    requires target { q < numbers input.now }
    requires child { arc.now.child < numbers input.now }
    ensures { result ≡ may_begin input.now q arc.now }
{
    arc.child == q as u64 || has_way(input, plan, q, arc.child as usize)
}

/// The arcs that lead away from `p` and may begin a path to `q`. Most arcs don't, and no clause is
/// about these.
fn arcs_towards(
    alloc: Global,
    input: &LevelInput,
    plan: &Plan,
    q: usize,
    p: usize,
) -> Result<Vec<Arc>, AllocError>
    requires right { IsRight input.now }
    requires plan { IsPlan input.now plan.now }
    requires target { q < numbers input.now }
    requires number { p < numbers input.now }
    ensures arcs { IfOk result (λ arcs. arcs.items ≡ arcs_towards input.now q p) }
    ensures within { IfOk result (λ arcs. All (λ a. a.child < numbers input.now) arcs.items) }
{
    let mut arcs = Vec::new(alloc);
    for arc in arcs_from(input, plan, p) {
        if may_begin(input, plan, q, arc) {
            arcs.push(*arc)?;
        }
    }
    Ok(arcs)
}

/// No path leads from `p` to `q`, or one of these arcs begins one.
fn path_begins(
    alloc: Global,
    input: &LevelInput,
    plan: &Plan,
    q: usize,
    p: usize,
    arcs: &[Arc],
) -> Result<Formula, AllocError>
    requires plan { IsPlan input.now plan.now }
    requires target { q < numbers input.now }
    requires number { p < numbers input.now }
    requires within { All (λ a. a.child < numbers input.now) arcs.now }
    ensures { IfOk result (λ f. f ≡ any_statement
        (opposite (path input.now p q) ∷ map (begins_path input.now q) arcs.now)) }
{
    let mut cases = Vec::new(alloc);
    cases.push(path(alloc, input, plan, p, q).negated())?;
    for arc in arcs {
        cases.push(begins(alloc, input, plan, q, arc)?)?;
    }
    Ok(Formula::any(cases))
}

/// A path leads from `p` to `q` exactly where one of these arcs begins one.
#[tactic(auto, unfolding(crate::specs::Towards::way_rules_over))]
fn add_way_rules(
    alloc: Global,
    input: &LevelInput,
    plan: &Plan,
    q: usize,
    p: usize,
    arcs: &[Arc],
    rules: &mut Vec<Formula>,
) -> Result<(), AllocError>
    requires plan { IsPlan input.now plan.now }
    requires target { q < numbers input.now }
    requires number { p < numbers input.now }
    requires within { All (λ a. a.child < numbers input.now) arcs.now }
    ensures { OnOk result
        (rules.new.items ≡ rules.old.items ++ way_rules_over input.now q p arcs.now) }
{
    rules.push(path_begins(alloc, input, plan, q, p, arcs)?)?;
    for arc in arcs {
        let begun = begins(alloc, input, plan, q, arc)?;
        rules.push(Formula::implies(alloc, begun, path(alloc, input, plan, p, q))?)?;
    }
    Ok(())
}

// Asserts the rules of the way from `p` to `q`, if there is one.
fn assert_way(
    alloc: Global,
    input: &LevelInput,
    plan: &Plan,
    q: usize,
    p: usize,
    clauses: &mut ClauseList,
) -> Result<(), AllocError>
    requires right { IsRight input.now }
    requires plan { IsPlan input.now plan.now }
    requires target { q < numbers input.now }
    requires number { p < numbers input.now }
    requires made { end input.now ≤ clauses.old.vars }
    ensures built { OnOk result (clauses.new
        ≡ assert_all clauses.old (if leads input.now q p then way_rules input.now q p else [])) }
    ensures more { OnOk result (clauses.old.vars ≤ clauses.new.vars) }
    ensures allows { Allows clauses.old clauses.new
        (λ asked v. Meets v (if leads input.now q p then way_rules input.now q p else [])) }
{
    if !has_way(input, plan, q, p) {
        return Ok(());
    }
    let arcs = arcs_towards(alloc, input, plan, q, p)?;
    let mut rules = Vec::new(alloc);
    add_way_rules(alloc, input, plan, q, p, arcs.as_slice(), &mut rules)?;
    assert_each(alloc, clauses, rules.as_slice())?;
    Ok(())
}

// Asserts the rules of the ways to `q`.
#[tactic(auto, using(crate::proofs::RuleLaws::path_rules_so_far))]
fn assert_target(
    alloc: Global,
    input: &LevelInput,
    plan: &Plan,
    q: usize,
    clauses: &mut ClauseList,
) -> Result<(), AllocError>
    requires right { IsRight input.now }
    requires plan { IsPlan input.now plan.now }
    requires target { q < numbers input.now }
    requires made { end input.now ≤ clauses.old.vars }
    ensures built { OnOk result (clauses.new ≡ assert_all clauses.old (path_rules input.now q)) }
    ensures more { OnOk result (clauses.old.vars ≤ clauses.new.vars) }
    ensures allows { Allows clauses.old clauses.new
        (λ asked v. Meets v (constraints input.now)) }
{
    for p in 0..input.size() {
        assert_way(alloc, input, plan, q, p, clauses)?;
    }
    Ok(())
}

/// Asserts the rules of all ways; the variables are there.
#[tactic(auto, using(crate::proofs::RuleLaws::target_rules_so_far))]
pub(crate) fn assert_paths(
    alloc: Global,
    input: &LevelInput,
    plan: &Plan,
    clauses: &mut ClauseList,
) -> Result<(), AllocError>
    requires right { IsRight input.now }
    requires plan { IsPlan input.now plan.now }
    requires made { end input.now ≤ clauses.old.vars }
    ensures built { OnOk result (clauses.new
        ≡ assert_all clauses.old (flat_map (path_rules input.now)
        (numbers_below (numbers input.now)))) }
    ensures more { OnOk result (clauses.old.vars ≤ clauses.new.vars) }
    ensures allows { Allows clauses.old clauses.new
        (λ asked v. Meets v (constraints input.now)) }
{
    for q in 0..input.size() {
        assert_target(alloc, input, plan, q, clauses)?;
    }
    Ok(())
}
