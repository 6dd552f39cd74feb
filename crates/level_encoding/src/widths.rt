//! How many digits a level has, and where they stand.

ghost use Rattle.std.specs.Prelude.{◌≡◌, ℕ, ◌<◌, ◌≤◌, ◌^◌, IfOk, length};
ghost use Rattle.reachability.specs.Paths.{joined, members};
ghost use Rattle.level_encoding.specs.Input.{IsRight, numbers, same, possible};
ghost use Rattle.level_encoding.specs.Encoding.{numbers_below, width, level_width, end};
ghost use Rattle.level_encoding.specs.Plan.{IsReached, AreWidths, AreStarts};

use crate::input::LevelInput;
use reachability::PathTable;
use std::alloc::{AllocError, Global};

/// Whether two numbers are one, or each reaches the other.
#[tactic(auto, using(crate::proofs::Reached::table_tells), unfolding(reachability::specs::Paths::joined))]
pub(crate) fn is_joined(input: &LevelInput, reached: &PathTable, p: usize, q: usize) -> bool
    requires reached { IsReached input.now reached.now }
    requires first { p < numbers input.now }
    requires second { q < numbers input.now }
    ensures { result ≡ joined same (possible input.now) p q }
{
    p == q || (reached.leads(p, q) && reached.leads(q, p))
}

/// How many numbers are joined with `q`.
#[tactic(auto, using(crate::proofs::Room::members_so_far))]
fn members(input: &LevelInput, reached: &PathTable, q: usize) -> usize
    requires reached { IsReached input.now reached.now }
    requires number { q < numbers input.now }
    ensures counted { result ≡ members same (possible input.now)
        (numbers_below (numbers input.now)) q }
    ensures few { result ≤ numbers input.now }
{
    let mut count = 0;
    for p in 0..input.size() {
        if is_joined(input, reached, p, q) {
            count += 1;
        }
    }
    count
}

/// How many binary digits it takes to number so many things.
fn width(things: usize) -> usize
    requires { things < 2 ^ 32 }
    ensures { result ≡ width things }
{
    let mut room: usize = 1;
    let mut digits: usize = 0;
    while room < things {
        room *= 2;
        digits += 1;
    }
    digits
}

/// The width of each number's level.
#[tactic(auto, unfolding(crate::specs::Encoding::level_width))]
pub(crate) fn widths(
    alloc: Global,
    input: &LevelInput,
    reached: &PathTable,
) -> Result<Vec<usize>, AllocError>
    requires reached { IsReached input.now reached.now }
    requires few { numbers input.now < 2 ^ 32 }
    ensures { IfOk result (λ widths. AreWidths input.now widths.items) }
{
    let mut widths = Vec::new(alloc);
    for i in 0..input.size() {
        widths.push(width(members(input, reached, i)))?;
    }
    Ok(widths)
}

/// The first variable of each number's level, and of what follows them.
#[tactic(auto, unfolding(crate::specs::Encoding::level_start, crate::specs::Counts::total_below))]
pub(crate) fn starts(
    alloc: Global,
    input: &LevelInput,
    widths: &[usize],
) -> Result<Vec<u64>, AllocError>
    requires widths { AreWidths input.now widths.now }
    requires room { end input.now < 2 ^ 64 }
    ensures { IfOk result (λ starts. AreStarts input.now starts.items) }
{
    let mut starts = Vec::new(alloc);
    let mut next = input.first();
    starts.push(next)?;
    for width in widths {
        next += *width as u64;
        starts.push(next)?;
    }
    Ok(starts)
}
