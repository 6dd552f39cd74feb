//! The check of a log for each of some lists of clauses.
ghost use Rattle.std.specs.Prelude.{◌≡◌, ◌↔◌, ◌+◌, ◌<◌, ◌^◌, None, All, IfOk, length};
ghost use Rattle.std.specs.Thread.{IsSync};
ghost use Rattle.log_checker.specs.declared.step.Step.TheVariants.{Accepted};
ghost use Rattle.root_groups.specs.Checked.{IsCertified, first_refused, either, refused_at, step_of};

use crate::halves::half_of;
use crate::solved::Part;
use certified::check_certificate;
use log_checker::{Gate, Step, Why};
use proof_log::Log;
use std::alloc::{AllocError, Global};
use std::thread::{Threads, join};

/// A part, the values that its bits are to have, and the log that is to show that no others are
/// less.
#[derive(Drop)]
pub struct CheckedPart {
    pub part: Part,
    pub values: Vec<bool>,
    pub log: Log,
}

/// What the check of a part's log ends with.
fn check_part<R: Threads + Sync>(
    rt: &R,
    alloc: Global,
    part: &CheckedPart,
) -> Result<Step, AllocError>
    ensures steps { IfOk result (λ step. step ≡ step_of part.now) }
    ensures exact { IfOk result (λ step. (step ≡ Accepted) ↔ IsCertified part.now) }
{
    let Part { clauses, bits } = &part.part;
    let values = part.values.as_slice();
    check_certificate(
        rt,
        alloc,
        clauses,
        bits.as_slice(),
        values,
        part.log.lines(),
    )
}

/// The refusal of a part at a place.
fn refused_at(place: u64, step: Step) -> Option<(u64, u64, Why)>
    ensures { result ≡ refused_at place step }
{
    match step {
        Step::Accepted => None,
        Step::Refused { line, why } => Some((place, line, why)),
    }
}

/// The first of some parts whose log is refused. They have places from `place` on.
fn refused_in_turn<R: Threads + Sync, G: Gate>(
    rt: &R,
    alloc: Global,
    gate: &G,
    half: u64,
    place: u64,
    parts: &[CheckedPart],
) -> Result<Option<(u64, u64, Why)>, AllocError>
    requires places { place + length parts.now < 2 ^ 64 }
    ensures first { IfOk result (λ bad. bad ≡ first_refused place parts.now) }
    ensures exact { IfOk result (λ bad. (bad ≡ None) ↔ All IsCertified parts.now) }
{
    for (i, part) in parts.iter().enumerate() {
        let here = place + i as u64;
        gate.arrive(half, here);
        match refused_at(here, check_part(rt, alloc, part)?) {
            None => {}
            Some(bad) => return Ok(Some(bad)),
        }
    }
    Ok(None)
}

fn either(one: Option<(u64, u64, Why)>, other: Option<(u64, u64, Why)>) -> Option<(u64, u64, Why)>
    ensures { result ≡ either one other }
{
    match one {
        Some(bad) => Some(bad),
        None => other,
    }
}

/// The first of some parts whose log is no certificate of its values: its place, from 0, the line
/// that is refused, and why. `None` where each is one. An error is want of memory.
///
/// The parts are split into two halves beside each other, of which the first is rounded up. A half
/// tells the gate its number and a part's place directly before it checks that part.
pub fn check_parts<R: Threads + Sync, G: Gate>(
    rt: &R,
    alloc: Global,
    gate: &G,
    parts: &[CheckedPart],
) -> Result<Option<(u64, u64, Why)>, AllocError>
    ensures first { IfOk result (λ bad. bad ≡ first_refused 0 parts.now) }
    ensures exact { IfOk result (λ bad. (bad ≡ None) ↔ All IsCertified parts.now) }
{
    let (front, back) = parts.split_at(half_of(parts.len()));
    let behind = front.len() as u64;
    let (one, other) = join(
        rt,
        || -> Result<Option<(u64, u64, Why)>, AllocError>
            requires { IsSync R.row × IsSync G.row × (length front.now < 2 ^ 64) }
            ensures { (IfOk result (λ bad. bad ≡ first_refused 0 front.entry.now))
                × IfOk result (λ bad. (bad ≡ None) ↔ All IsCertified front.entry.now) }
        { refused_in_turn(rt, alloc, gate, 0, 0, front) },
        || -> Result<Option<(u64, u64, Why)>, AllocError>
            requires { IsSync R.row × IsSync G.row × (behind + length back.now < 2 ^ 64) }
            ensures { (IfOk result (λ bad. bad ≡ first_refused behind back.entry.now))
                × IfOk result (λ bad. (bad ≡ None) ↔ All IsCertified back.entry.now) }
        { refused_in_turn(rt, alloc, gate, 1, behind, back) },
    );
    let one = one?;
    let other = other?;
    Ok(either(one, other))
}
