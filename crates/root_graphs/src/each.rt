//! The best graph of each of some problems.
ghost use Rattle.std.specs.Prelude.{◌+◌, ◌<◌, ◌^◌, All, IfOk, length};
ghost use Rattle.std.specs.Thread.{IsSync};
ghost use Rattle.best_graph.specs.Answers.{IsAnswer};
ghost use Rattle.root_graphs.specs.Each.{AreAnswers, IsSolvable};

use crate::threads::at_once;
use best_graph::{Answer, Untold, best_graph};
use possible_closure::{ClosureFault, closure};
use problem::Problem;
use root_groups::{Gate, half_of, joined};
use std::alloc::{AllocError, Global};
use std::thread::{Threads, join};

/// The best graph of a problem, of which nobody is told how far it is.
fn best_of_one(alloc: Global, problem: &Problem, budget: u64) -> Result<Answer, AllocError>
    requires { IsSolvable problem.now }
    ensures { IfOk result (IsAnswer problem.now budget) }
{
    match closure(alloc, problem) {
        Ok(names) => {
            let answer = best_graph(alloc, problem, &names, budget, &mut Untold);
            drop(names);
            answer
        }
        Err(ClosureFault::TooManyPackages) => unreachable!(),
        Err(ClosureFault::OutOfMemory) => Err(AllocError),
    }
}

/// The same of each of some problems, one after the other, so that one encoding stands in memory.
/// They have places from `place` on.
fn best_in_turn<G: Gate>(
    alloc: Global,
    gate: &G,
    half: u64,
    place: u64,
    problems: &[Problem],
    budget: u64,
) -> Result<Vec<Answer>, AllocError>
    requires places { place + length problems.now < 2 ^ 64 }
    requires solvable { All IsSolvable problems.now }
    ensures { IfOk result (λ answers. AreAnswers budget problems.now answers.items) }
{
    let mut answers = Vec::new(alloc);
    for (i, problem) in problems.iter().enumerate() {
        gate.arrive(half, place + i as u64);
        answers.push(best_of_one(alloc, problem, budget)?)?;
    }
    Ok(answers)
}

/// The same of each of some problems, at most so many beside each other: while there are two
/// threads or more, and two problems or more, both are halved.
#[cycle(beside)]
fn best_beside<R: Threads + Sync, G: Gate>(
    rt: &R,
    alloc: Global,
    gate: &G,
    half: u64,
    place: u64,
    threads: u64,
    problems: &[Problem],
    budget: u64,
) -> Result<Vec<Answer>, AllocError>
    requires places { place + length problems.now < 2 ^ 64 }
    requires solvable { All IsSolvable problems.now }
    ensures { IfOk result (λ answers. AreAnswers budget problems.now answers.items) }
{
    if threads < 2 || problems.len() < 2 {
        return best_in_turn(alloc, gate, half, place, problems, budget);
    }
    let (front, back) = problems.split_at(half_of(problems.len()));
    let behind = place + front.len() as u64;
    let (fewer, rest) = (threads - threads / 2, threads / 2);
    let ahead = move || -> Result<Vec<Answer>, AllocError>
        requires { IsSync R.row × IsSync G.row × (place + length front.now < 2 ^ 64)
            × All IsSolvable front.now }
        ensures { IfOk result (λ answers. AreAnswers budget front.entry.now answers.items) }
    { best_beside(rt, alloc, gate, half, place, fewer, front, budget) };
    let beyond = move || -> Result<Vec<Answer>, AllocError>
        requires { IsSync R.row × IsSync G.row × (behind + length back.now < 2 ^ 64)
            × All IsSolvable back.now }
        ensures { IfOk result (λ answers. AreAnswers budget back.entry.now answers.items) }
    { best_beside(rt, alloc, gate, half, behind, rest, back, budget) };
    let (one, other) = join(rt, ahead, beyond);
    let one = one?;
    let other = other?;
    let all = joined(one, other)?;
    Ok(all)
}

/// The best graph of each of some problems, where each search may learn so many clauses: at each
/// place what `best_graph` gives of the problem there. An error is want of memory.
///
/// The problems are split into two halves, of which the first is rounded up, and each half into as
/// many parts as it has processors. A part is one thread's, which has one encoding at a time. A
/// half tells the gate its number and a problem's place directly before it solves that problem.
pub fn best_of_each<R: Threads + Sync, G: Gate>(
    rt: &R,
    alloc: Global,
    gate: &G,
    problems: &[Problem],
    budget: u64,
) -> Result<Vec<Answer>, AllocError>
    requires { All IsSolvable problems.now }
    ensures { IfOk result (λ answers. AreAnswers budget problems.now answers.items) }
{
    let threads = at_once(rt);
    let (front, back) = problems.split_at(half_of(problems.len()));
    let behind = front.len() as u64;
    let (fewer, rest) = (threads - threads / 2, threads / 2);
    let ahead = move || -> Result<Vec<Answer>, AllocError>
        requires { IsSync R.row × IsSync G.row × (length front.now < 2 ^ 64)
            × All IsSolvable front.now }
        ensures { IfOk result (λ answers. AreAnswers budget front.entry.now answers.items) }
    { best_beside(rt, alloc, gate, 0, 0, fewer, front, budget) };
    let beyond = move || -> Result<Vec<Answer>, AllocError>
        requires { IsSync R.row × IsSync G.row × (behind + length back.now < 2 ^ 64)
            × All IsSolvable back.now }
        ensures { IfOk result (λ answers. AreAnswers budget back.entry.now answers.items) }
    { best_beside(rt, alloc, gate, 1, behind, rest, back, budget) };
    let (one, other) = join(rt, ahead, beyond);
    let one = one?;
    let other = other?;
    let all = joined(one, other)?;
    Ok(all)
}
