//! The literals that say where paths lead.

ghost use Rattle.std.specs.Prelude.{true, false, ◌≡◌, ℕ, ◌<◌, ◌+◌, ◌^◌, Some, None, IfOk, OnOk, slice_index_or, if◌then◌else◌};
ghost use Rattle.clause_circuits.specs.Gates.{lit_of};
ghost use Rattle.level_encoding.specs.Input.{is_asked_target, numbers};
ghost use Rattle.level_encoding.specs.Encoding.{end, leads, level_start, path_start, turn_start, way};
ghost use Rattle.level_encoding.specs.Plan.{IsReached, AreWays};

use crate::input::LevelInput;
use clause_store::{Lit, Var};
use reachability::PathTable;
use std::alloc::{AllocError, Global};
use std::marker::Model;

/// For one target, the literal of each number that arcs lead from.
#[derive(Drop)]
pub(crate) struct WayRow {
    lits: Vec<Option<Lit>>,
}

impl Model for WayRow {
    ghost use Rattle.std.specs.Prelude.{List, Option};
    ghost use Rattle.clause_store.specs.declared.Lit.{Lit};

    ghost Value = { List (Option Lit) };

    ghost view = { λ row. row.lits.items };
}

impl WayRow {
    /// The literal for paths from a number: none where no arcs lead, or beyond the last.
    pub(crate) fn at(&self, p: usize) -> Option<Lit>
        ensures { result ≡ slice_index_or self.now p None }
    {
        if p < self.lits.len() {
            self.lits[p]
        } else {
            None
        }
    }
}

/// Whether some pair asks for paths to `q`.
#[tactic(auto, unfolding(crate::specs::Input::is_asked_target))]
fn is_target(input: &LevelInput, q: u64) -> bool
    ensures { result ≡ is_asked_target input.now q }
{
    input.asked().iter().any(|pair| pair.1 == q)
}

/// The true literal of a variable, where arcs lead.
fn way_lit(leads: bool, variable: u64) -> Option<Lit>
    ensures { result ≡ (if leads then Some (lit_of variable) else None) }
{
    if leads {
        Some(Lit {
            var: Var(variable),
            positive: true,
        })
    } else {
        None
    }
}

/// Whether arcs lead from `p` to the target `q`.
#[tactic(auto, using(crate::proofs::Reached::table_tells), unfolding(crate::specs::Encoding::leads))]
fn leads(input: &LevelInput, reached: &PathTable, q: usize, p: usize) -> bool
    requires reached { IsReached input.now reached.now }
    requires asked { is_asked_target input.now q ≡ true }
    requires target { q < numbers input.now }
    requires number { p < numbers input.now }
    ensures { result ≡ leads input.now q p }
{
    reached.leads(p, q)
}

/// No way leads to what is no target, and no variable stands for one.
#[tactic(auto, using(crate::proofs::Room::no_ways))]
fn no_ways(alloc: Global, input: &LevelInput, q: usize) -> WayRow
    requires { is_asked_target input.now q ≡ false }
    ensures row { (p : ℕ) → slice_index_or result p None ≡ way input.now q p }
    ensures next { path_start input.now (q + 1) ≡ path_start input.now q }
{
    WayRow {
        lits: Vec::new(alloc),
    }
}

/// The literals of the ways to `q`; `next` is the next new variable.
#[tactic(auto, using(crate::proofs::Room::ways_so_far), unfolding(crate::specs::Encoding::way))]
fn ways_to(
    alloc: Global,
    input: &LevelInput,
    reached: &PathTable,
    q: usize,
    next: &mut u64,
) -> Result<WayRow, AllocError>
    requires reached { IsReached input.now reached.now }
    requires number { q < numbers input.now }
    requires room { end input.now < 2 ^ 64 }
    requires begins { next.old ≡ path_start input.now q }
    ensures row { IfOk result (λ row. (p : ℕ) → p < numbers input.now → slice_index_or row p None
        ≡ way input.now q p) }
    ensures next { OnOk result (next.new ≡ path_start input.now (q + 1)) }
{
    if !is_target(input, q as u64) {
        return Ok(no_ways(alloc, input, q));
    }
    let mut lits = Vec::new(alloc);
    for p in 0..input.size() {
        let leads = leads(input, reached, q, p);
        lits.push(way_lit(leads, *next))?;
        if leads {
            *next += 1;
        }
    }
    Ok(WayRow { lits })
}

/// The literals of all ways; `next` is the next new variable.
#[tactic(auto, using(crate::proofs::Room::paths_so_far))]
pub(crate) fn ways(
    alloc: Global,
    input: &LevelInput,
    reached: &PathTable,
    next: &mut u64,
) -> Result<Vec<WayRow>, AllocError>
    requires reached { IsReached input.now reached.now }
    requires room { end input.now < 2 ^ 64 }
    requires begins { next.old ≡ level_start input.now (numbers input.now) }
    ensures rows { IfOk result (λ rows. AreWays input.now rows.items) }
    ensures next { OnOk result (next.new ≡ turn_start input.now) }
{
    let mut rows = Vec::new(alloc);
    for q in 0..input.size() {
        rows.push(ways_to(alloc, input, reached, q, next)?)?;
    }
    Ok(rows)
}
