//! The least bits of each of some lists of clauses.
ghost use Rattle.std.specs.Prelude.{◌+◌, ◌<◌, ◌^◌, All, IfOk, length};
ghost use Rattle.std.specs.Thread.{IsSync};
ghost use Rattle.root_groups.specs.Solved.{AreFound, IsInRange};

use crate::halves::{half_of, joined};
use clause_store::{ClauseList, Lit};
use log_checker::Gate;
use optimum_search::{Found, search};
use std::alloc::{AllocError, Global};
use std::thread::{Threads, join};

/// Clauses, and the bits whose least values are looked for.
#[derive(Drop)]
pub struct Part {
    pub clauses: ClauseList,
    pub bits: Vec<Lit>,
}

/// What is found for each of some parts, one after the other. They have places from `place` on.
fn solve_in_turn<G: Gate>(
    alloc: Global,
    gate: &G,
    half: u64,
    place: u64,
    parts: &[Part],
    budget: u64,
) -> Result<Vec<Found>, AllocError>
    requires places { place + length parts.now < 2 ^ 64 }
    requires in_range { All IsInRange parts.now }
    ensures { IfOk result (λ found. AreFound budget parts.now found.items) }
{
    let mut found = Vec::new(alloc);
    for (i, part) in parts.iter().enumerate() {
        gate.arrive(half, place + i as u64);
        found.push(search(alloc, &part.clauses, part.bits.as_slice(), budget)?)?;
    }
    Ok(found)
}

/// The least bits of each of some parts, where each search may learn so many clauses: at each place
/// what `search` gives of the part there. An error is want of memory.
///
/// The parts are split into two halves beside each other, of which the first is rounded up. A half
/// tells the gate its number and a part's place directly before it solves that part.
pub fn solve_each<R: Threads + Sync, G: Gate>(
    rt: &R,
    alloc: Global,
    gate: &G,
    parts: &[Part],
    budget: u64,
) -> Result<Vec<Found>, AllocError>
    requires { All IsInRange parts.now }
    ensures { IfOk result (λ found. AreFound budget parts.now found.items) }
{
    let (front, back) = parts.split_at(half_of(parts.len()));
    let behind = front.len() as u64;
    let (one, other) = join(
        rt,
        || -> Result<Vec<Found>, AllocError>
            requires { IsSync G.row × (length front.now < 2 ^ 64) × All IsInRange front.now }
            ensures { IfOk result (λ found. AreFound budget front.entry.now found.items) }
        { solve_in_turn(alloc, gate, 0, 0, front, budget) },
        || -> Result<Vec<Found>, AllocError>
            requires { IsSync G.row × (behind + length back.now < 2 ^ 64) × All IsInRange back.now }
            ensures { IfOk result (λ found. AreFound budget back.entry.now found.items) }
        { solve_in_turn(alloc, gate, 1, behind, back, budget) },
    );
    let one = one?;
    let other = other?;
    let all = joined(one, other)?;
    Ok(all)
}
