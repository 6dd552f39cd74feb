//! What is worked out of an input before its formulas are written.

ghost use Rattle.std.specs.Prelude.{◌≡◌, ◌<◌, ◌^◌, IfOk};
ghost use Rattle.level_encoding.specs.Input.{IsRight, numbers};
ghost use Rattle.level_encoding.specs.Encoding.{level_start, level_width, end};
ghost use Rattle.level_encoding.specs.Plan.{IsPlan};

use crate::arcs::table_of;
use crate::groups::{Group, by_child, by_parent};
use crate::input::LevelInput;
use crate::ways::{WayRow, ways};
use crate::widths::{starts, widths};
use reachability::PathTable;
use std::alloc::{AllocError, Global};

#[derive(Drop)]
pub(crate) struct Plan {
    /// Which number reaches which.
    pub(crate) reached: PathTable,
    /// The digits of each number's level.
    pub(crate) widths: Vec<usize>,
    /// The first variable of each level, and of what follows them.
    pub(crate) starts: Vec<u64>,
    /// For each target, the literal of each number that arcs lead from.
    pub(crate) ways: Vec<WayRow>,
    /// The first variable behind those of paths.
    pub(crate) turns: u64,
    /// For each number the arcs that lead to it.
    pub(crate) arriving: Vec<Group>,
    /// For each number the arcs that lead from it.
    pub(crate) leaving: Vec<Group>,
}

/// Where each level, path and turn has its variables, and which arcs come to and leave each number.
pub(crate) fn make_plan(alloc: Global, input: &LevelInput) -> Result<Plan, AllocError>
    requires right { IsRight input.now }
    requires few { numbers input.now < 2 ^ 32 }
    requires room { end input.now < 2 ^ 64 }
    ensures { IfOk result (λ plan. IsPlan input.now plan) }
{
    let reached = table_of(alloc, input)?;
    let widths = widths(alloc, input, &reached)?;
    let starts = starts(alloc, input, &widths)?;
    let mut turns = starts[input.size()];
    let ways = ways(alloc, input, &reached, &mut turns)?;
    let arriving = by_child(alloc, input)?;
    let leaving = by_parent(alloc, input)?;
    Ok(Plan {
        reached,
        widths,
        starts,
        ways,
        turns,
        arriving,
        leaving,
    })
}

/// The first variable of a number's level.
pub(crate) fn level_start(input: &LevelInput, plan: &Plan, i: usize) -> u64
    requires plan { IsPlan input.now plan.now }
    requires number { i < numbers input.now }
    ensures { result ≡ level_start input.now i }
{
    plan.starts[i]
}

/// How many variables a number's level has.
pub(crate) fn level_width(input: &LevelInput, plan: &Plan, i: usize) -> usize
    requires plan { IsPlan input.now plan.now }
    requires number { i < numbers input.now }
    ensures { result ≡ level_width input.now i }
{
    plan.widths[i]
}
