//! `parts BUDGET VARS BITS.. 0 CLAUSES.. | BITS.. 0 CLAUSES..`: two lists of clauses that are
//! apart, each over so many variables, solved in two halves that wait for each other; and then
//! their logs, checked in two such halves. A log is checked as a certificate of the bits that the
//! model has, or of no true variable where there is no model.
ghost use Rattle.std.specs.Prelude.{All, IfSome, IfOk};
ghost use Rattle.root_groups.specs.Solved.{IsInRange};

use crate::answers::step_text;
use crate::halves::Masks;
use crate::input::{are_below, clauses_of, lits_of, number_of};
use crate::search_row::values_of;
use log_checker::Step;
use optimum_search::Found;
use plain_data::List;
use root_groups::{CheckedPart, Part, check_parts, solve_each};
use std::alloc::{AllocError, Global};
use std::thread::Threads;

pub fn answer<R: Threads + Sync>(
    rt: &R,
    alloc: Global,
    budget: &str,
    vars: &str,
    words: &[&str],
) -> Result<String, AllocError> {
    let bar = words
        .iter()
        .position(|word| *word == "|")
        .unwrap_or(words.len());
    let (one, other) = words.split_at(bar);
    let one = part_of(alloc, number_of(vars), one)?;
    let other = part_of(alloc, number_of(vars), other.get(1..).unwrap_or(&[]))?;
    match (one, other) {
        (Some(one), Some(other)) => {
            let parts = list_of(alloc, one, other)?;
            of_all(rt, alloc, number_of(budget), parts)
        }
        _ => String::from_str(alloc, "no"),
    }
}

/// The part that words spell, where its bits are over its variables.
fn part_of(alloc: Global, vars: u64, words: &[&str]) -> Result<Option<Part>, AllocError>
    ensures { IfOk result (λ part. IfSome part IsInRange) }
{
    let (bits, rest) = lits_of(alloc, vars, words)?;
    let clauses = clauses_of(alloc, vars, rest)?;
    if !are_below(&bits, clauses.vars()) {
        return Ok(None);
    }
    Ok(Some(Part { clauses, bits }))
}

/// The two of them as a list.
fn list_of(alloc: Global, one: Part, other: Part) -> Result<Vec<Part>, AllocError>
    requires one { IsInRange one }
    requires other { IsInRange other }
    ensures { IfOk result (λ parts. All IsInRange parts.items) }
{
    let mut parts = Vec::new(alloc);
    parts.push(one)?;
    parts.push(other)?;
    Ok(parts)
}

/// What is found for each, and then what the check of all their logs answers; each with where the
/// halves were.
fn of_all<R: Threads + Sync>(
    rt: &R,
    alloc: Global,
    budget: u64,
    parts: Vec<Part>,
) -> Result<String, AllocError>
    requires { All IsInRange parts.items }
{
    let gate = Masks::new();
    let found = solve_each(rt, alloc, &gate, parts.as_slice(), budget)?;
    let met = gate.text(alloc)?;
    let mut names = String::new(alloc);
    let mut checked = Vec::new(alloc);
    for (part, found) in parts.into_iter().zip(found) {
        names.push_str(found_name(&found))?;
        names.push_str(", ")?;
        checked.push(with_log(alloc, part, found)?)?;
    }
    let checked = checked_text(rt, alloc, checked.as_slice())?;
    format!(in alloc; "{names}{met}; {checked}")
}

fn found_name(found: &Found) -> &'static str {
    match found {
        Found::Optimal { .. } => "optimal",
        Found::Refuted { .. } => "refuted",
        Found::Spent { .. } => "spent",
    }
}

/// The part with the log that was found for it.
fn with_log(alloc: Global, part: Part, found: Found) -> Result<CheckedPart, AllocError> {
    let (model, log) = match found {
        Found::Optimal { model, log } => (model, log),
        Found::Refuted { log } | Found::Spent { log } => (List::new(alloc), log),
    };
    let values = values_of(alloc, model.as_slice(), &part.bits)?;
    Ok(CheckedPart { part, values, log })
}

/// `accepted`, or the place of the part that is refused, from 0, with the line and why.
fn checked_text<R: Threads + Sync>(
    rt: &R,
    alloc: Global,
    parts: &[CheckedPart],
) -> Result<String, AllocError> {
    let gate = Masks::new();
    let bad = check_parts(rt, alloc, &gate, parts)?;
    let met = gate.text(alloc)?;
    match bad {
        None => format!(in alloc; "accepted, {met}"),
        Some((place, line, why)) => {
            let refused = step_text(alloc, Step::Refused { line, why })?;
            format!(in alloc; "{place}: {refused}, {met}")
        }
    }
}
