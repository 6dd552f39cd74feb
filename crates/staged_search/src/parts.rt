//! Which clauses a number needs.

use clause_store::{ClauseList, Lit};
use optimum_search::Number;
use std::alloc::{AllocError, Global};

/// The clauses that come no later than a number, and the variables that have values then: the first
/// ones. Nothing rests on it.
#[derive(Clone, Copy)]
pub struct Part {
    /// All variables of these clauses are below.
    pub reach: u64,
    /// So many clauses.
    pub end: u64,
}

/// The least number above the variables of some literals that is no lower than another.
fn above(lits: &[Lit], least: u64) -> u64 {
    let mut reach = least;
    for lit in lits {
        reach = reach.max(lit.var.0.saturating_add(1));
    }
    reach
}

/// One part for each number, over the variables up to the last one of its bits. A variable is made
/// after those that define it, so the bits of a number need no clause with a later one.
fn reaches(
    alloc: Global,
    first: Part,
    bits: &[Lit],
    numbers: &[Number],
) -> Result<Vec<Part>, AllocError> {
    let mut parts = Vec::new(alloc);
    let mut place = 0;
    let mut reach = first.reach;
    for number in numbers {
        let end = number.end.min(bits.len());
        if place < end {
            reach = above(&bits[place..end], reach);
            place = end;
        }
        parts.push(Part {
            reach,
            end: first.end,
        })?;
    }
    Ok(parts)
}

/// The first part that reaches a variable; behind the last where none does.
fn part_of(parts: &[Part], var: u64) -> usize {
    for (at, part) in parts.iter().enumerate() {
        if var < part.reach {
            return at;
        }
    }
    parts.len()
}

/// The last variable of a clause.
fn last_of(lits: &[Lit]) -> u64 {
    match lits.last() {
        Some(lit) => lit.var.0,
        None => 0,
    }
}

/// Each part ends behind the last clause over its variables.
pub fn parts_of(
    alloc: Global,
    clauses: &ClauseList,
    first: Part,
    bits: &[Lit],
    numbers: &[Number],
) -> Result<Vec<Part>, AllocError> {
    let mut parts = reaches(alloc, first, bits, numbers)?;
    for place in first.end..clauses.len() {
        if let Some(clause) = clauses.get(alloc, place + 1)? {
            let at = part_of(parts.as_slice(), last_of(clause.lits()));
            if at < parts.len() {
                parts[at].end = place + 1;
            }
        }
    }
    rise(&mut parts);
    Ok(parts)
}

/// No part ends before an earlier one.
fn rise(parts: &mut Vec<Part>) {
    let mut end = 0;
    for part in parts.iter_mut() {
        end = end.max(part.end);
        part.end = end;
    }
}
