//! A block of lines: first what needs no chain, line after line, and then the chains in two halves
//! beside each other.

ghost use Rattle.std.specs.Prelude.{◌≡◌, ◌+◌, ◌-◌, ◌<◌, ◌≤◌, ◌^◌, None, IfOk, OnOk, length};
ghost use Rattle.log_checker.specs.Steps.{run_lines, Going};
ghost use Rattle.log_checker.specs.Blocks.{take_in, first_bad, either, is_late, verdict, one_more, progress_of, Grows};

use crate::gate::Gate;
use crate::known::KnownList;
use crate::lines::own_chain;
use crate::position::Position;
use crate::signs::Signs;
use crate::step::Why;
use clause_store::Lit;
use proof_log::Line;
use std::alloc::{AllocError, Global};
use std::thread::{Threads, join};

/// The clauses over which the chains of a block are checked.
#[derive(Clone, Copy)]
pub struct Ground<'a> {
    alloc: Global,
    vars: usize,
    bits: &'a [Lit],
    known: &'a KnownList,
}

/// The first of some lines whose chain has a fault, by its number in the log. The lines stand at
/// places from `place` on, and have numbers from `number` on.
fn first_bad<G: Gate>(
    ground: Ground,
    gate: &G,
    half: u64,
    place: u64,
    number: u64,
    lines: &[Line],
) -> Result<Option<(u64, Why)>, AllocError>
    requires places { place + length lines.now < 2 ^ 64 }
    requires numbers { number + length lines.now < 2 ^ 64 }
    ensures { IfOk result (λ bad. bad
        ≡ first_bad ground.entry.bits.now ground.entry.known.now number lines.now) }
{
    let mut signs = Signs::new(ground.alloc, ground.vars)?;
    for (i, line) in lines.iter().enumerate() {
        gate.arrive(half, place + i as u64);
        if let Some(why) = own_chain(&mut signs, ground.bits, ground.known, line)? {
            return Ok(Some((number + i as u64, why)));
        }
    }
    Ok(None)
}

/// The same for two parts, beside each other.
fn first_bad_of_parts<R: Threads + Sync, G: Gate>(
    rt: &R,
    ground: Ground,
    gate: &G,
    number: u64,
    front: &[Line],
    back: &[Line],
) -> (
    Result<Option<(u64, Why)>, AllocError>,
    Result<Option<(u64, Why)>, AllocError>,
)
    requires { number + length front.now + length back.now < 2 ^ 64 }
    ensures front { IfOk result.0 (λ bad. bad
        ≡ first_bad ground.entry.bits.now ground.entry.known.now number front.now) }
    ensures back { IfOk result.1 (λ bad. bad
        ≡ first_bad ground.entry.bits.now ground.entry.known.now
        (number + length front.now) back.now) }
{
    let Ground {
        alloc,
        vars,
        bits,
        known,
    } = ground;
    let place = front.len() as u64;
    let later = number + place;
    join(
        rt,
        || -> Result<Option<(u64, Why)>, AllocError>
            requires { number + length front.now < 2 ^ 64 }
            ensures { IfOk result (λ bad. bad
                ≡ first_bad bits.entry.now known.entry.now number front.entry.now) }
        {
            let ground = Ground {
                alloc,
                vars,
                bits,
                known,
            };
            first_bad(ground, gate, 0, 0, number, front)
        },
        || -> Result<Option<(u64, Why)>, AllocError>
            requires { (place + length back.now < 2 ^ 64) × (later + length back.now < 2 ^ 64) }
            ensures { IfOk result (λ bad. bad
                ≡ first_bad bits.entry.now known.entry.now later back.entry.now) }
        {
            let ground = Ground {
                alloc,
                vars,
                bits,
                known,
            };
            first_bad(ground, gate, 1, place, later, back)
        },
    )
}

/// The same for two halves, the first of them rounded up.
fn first_bad_of_halves<R: Threads + Sync, G: Gate>(
    rt: &R,
    ground: Ground,
    gate: &G,
    number: u64,
    lines: &[Line],
) -> Result<Option<(u64, Why)>, AllocError>
    requires { number + length lines.now < 2 ^ 64 }
    ensures { IfOk result (λ bad. bad
        ≡ first_bad ground.entry.bits.now ground.entry.known.now number lines.now) }
{
    let (front, back) = lines.split_at(lines.len() - lines.len() / 2);
    let (one, other) = first_bad_of_parts(rt, ground, gate, number, front, back);
    let one = one?;
    let other = other?;
    Ok(either(one, other))
}

fn either(one: Option<(u64, Why)>, other: Option<(u64, Why)>) -> Option<(u64, Why)>
    ensures { result ≡ either one other }
{
    match one {
        Some(bad) => Some(bad),
        None => other,
    }
}

fn is_late(why: Why) -> bool
    ensures { result ≡ is_late why }
{
    match why {
        Why::WrongBit | Why::NotNew => true,
        _ => false,
    }
}

/// The refusal of a block: by the chain of a line, or by the tests without chains of the line
/// behind those that were taken.
fn verdict(lines: u64, plain: Option<Why>, bad: Option<(u64, Why)>) -> Option<(u64, Why)>
    requires { lines + 1 < 2 ^ 64 }
    ensures { result ≡ verdict lines plain bad }
{
    let Some(why) = plain else {
        return bad;
    };
    if let Some((line, chain)) = bad {
        if line <= lines || is_late(why) {
            return Some((line, chain));
        }
    }
    Some((lines + 1, why))
}

/// Takes lines in, one after the other, up to the first that a test without its chain refuses.
fn take_in(position: &mut Position, lines: &[Line]) -> Result<Option<Why>, AllocError>
    ensures ok { IfOk result (λ why. (position.new, why) ≡ take_in position.old lines.now) }
    ensures grown { Grows position.old position.new }
{
    for line in lines {
        if let Some(why) = position.plain_fault(line)? {
            return Ok(Some(why));
        }
        position.accept(line)?;
    }
    Ok(None)
}

/// How many lines there are to check: those that were taken in, and the one that was refused.
fn count_checked(before: u64, after: u64, plain: Option<Why>) -> usize
    requires rising { before ≤ after }
    requires small { after + 1 < 2 ^ 64 }
    ensures { result ≡ after - before + one_more plain }
{
    let taken = (after - before) as usize;
    match plain {
        Some(_) => taken + 1,
        None => taken,
    }
}

/// Checks a block, and gives the line that is refused. Where one is, or after an error, some of the
/// lines were taken in.
pub fn check_block<R: Threads + Sync, G: Gate>(
    rt: &R,
    alloc: Global,
    vars: usize,
    gate: &G,
    position: &mut Position,
    lines: &[Line],
) -> Result<Option<(u64, Why)>, AllocError>
    ensures ok { IfOk result (λ bad. progress_of position.new bad
        ≡ run_lines (Going position.old) lines.now) }
    ensures grown { Grows position.old position.new }
{
    let before = position.lines();
    let plain = take_in(position, lines)?;
    let count = count_checked(before, position.lines(), plain);
    let ground = Ground {
        alloc,
        vars: position.known().room(vars),
        bits: position.bits(),
        known: position.known(),
    };
    let bad = first_bad_of_halves(rt, ground, gate, before + 1, &lines[..count])?;
    Ok(verdict(position.lines(), plain, bad))
}
