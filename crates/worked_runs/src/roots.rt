//! Whether two roots, and two lists of clauses, are worked on beside each other: at one place each.
ghost use Rattle.std.specs.Prelude.{◌<◌, IfOk, length};
ghost use Rattle.run_input.specs.Inputs.{IsPosed};
ghost use Rattle.root_graphs.specs.Each.{IsSolvable};
ghost use Rattle.root_groups.specs.Solved.{IsInRange};

use crate::checks::{RECIPE_PATH, ZLIB, words_of};
use clause_store::{ClauseList, Lit};
use outside_desk::SteadyDesk;
use problem::Problem;
use root_graphs::{Gate, best_of_each};
use root_groups::{Part, solve_each};
use run_input::{Input, read_command, read_input};
use run_task::alone_input;
use std::alloc::{AllocError, Global};
use std::process::Abort;
use std::sync::atomic::{AtomicBool, AtomicU64, Ordering};
use std::test::Fail;

const ROOT_WORDS: &[&str] = &["concretize", "r", "-", "-", "l", "-", "zlib", "x"];

/// Notes where each half was, and has each wait for a while until the other was somewhere.
#[derive(Drop)]
struct Masks {
    first: AtomicU64,
    second: AtomicU64,
    alone: AtomicBool,
}

impl Masks {
    fn new() -> Masks {
        Masks {
            first: AtomicU64::new(0),
            second: AtomicU64::new(0),
            alone: AtomicBool::new(false),
        }
    }
}

impl Gate for Masks {
    fn arrive(&self, half: u64, place: u64) {
        let bit = if place < 64 { 1u64 << place } else { 0 };
        let met = if half == 0 {
            self.first.fetch_or(bit, Ordering::SeqCst);
            is_there(&self.second)
        } else {
            self.second.fetch_or(bit, Ordering::SeqCst);
            is_there(&self.first)
        };
        if !met {
            self.alone.store(true, Ordering::SeqCst);
        }
    }
}

/// Whether a half arrives somewhere within many turns.
fn is_there(mask: &AtomicU64) -> bool {
    for _ in 0..100_000_000u64 {
        if mask.load(Ordering::SeqCst) != 0 {
            return true;
        }
    }
    false
}

/// The first half was at just the place 0, the second at just the place 1, and each found the
/// other.
fn check_met(rt: &impl Abort, gate: &Masks) {
    assert_eq!(rt; gate.first.load(Ordering::SeqCst), 1, "the first half");
    assert_eq!(rt; gate.second.load(Ordering::SeqCst), 2, "the second half");
    assert!(rt; !gate.alone.load(Ordering::SeqCst), "a half was alone");
}

/// One variable that is free, whose bit is to be least.
fn free_part(alloc: Global) -> Result<Part, AllocError>
    ensures { IfOk result (λ part. IsInRange part) }
{
    let mut clauses = ClauseList::new(alloc);
    let var = clauses.new_var()?;
    let mut bits = Vec::new(alloc);
    bits.push(Lit {
        var,
        positive: true,
    })?;
    Ok(Part { clauses, bits })
}

#[test]
fn parts_meet(rt: HostRuntime) -> Result<(), Fail> {
    let alloc = rt.alloc();
    let mut parts = Vec::new(alloc);
    parts.push(free_part(alloc)?)?;
    parts.push(free_part(alloc)?)?;
    let gate = Masks::new();
    let found = solve_each(&rt, alloc, &gate, parts.as_slice(), 1)?;
    assert_eq!(rt; found.len(), 2);
    check_met(&rt, &gate);
    Ok(())
}

/// The problem that has one of the roots as its only one.
fn alone_of(alloc: Global, input: &Input, place: usize) -> Result<Problem, AllocError>
    requires posed { IsPosed input.now }
    requires within { place < length input.now.problem.roots }
    ensures { IfOk result (λ problem. IsSolvable problem) }
{
    let Input { problem, closure } = alone_input(alloc, input, place)?;
    drop(closure);
    Ok(problem)
}

#[test]
fn roots_meet(rt: HostRuntime) -> Result<(), Fail> {
    let alloc = rt.alloc();
    let words = words_of(alloc, ROOT_WORDS)?;
    let mut desk = SteadyDesk::new(alloc);
    desk.add(RECIPE_PATH, ZLIB)?;
    desk.add(
        "r/packages/x/package.py",
        b"class X(Package):\n    version(\"1\")\n",
    )?;
    let Ok(command) = read_command(alloc, &words) else {
        assert!(rt; false, "the words");
        return Ok(());
    };
    let Ok(input) = read_input(&rt, alloc, &mut desk, &command) else {
        assert!(rt; false, "the input");
        return Ok(());
    };
    assert_eq!(rt; input.problem.roots().len(), 2);
    let mut problems = Vec::new(alloc);
    problems.push(alone_of(alloc, &input, 0)?)?;
    problems.push(alone_of(alloc, &input, 1)?)?;
    let gate = Masks::new();
    let answers = best_of_each(&rt, alloc, &gate, problems.as_slice(), 1_000_000)?;
    assert_eq!(rt; answers.len(), 2);
    check_met(&rt, &gate);
    Ok(())
}
