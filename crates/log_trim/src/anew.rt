//! Lines under new ids.
ghost use Rattle.std.specs.Prelude.{◌≡◌, ◌+◌, ◌<◌, ◌^◌, ◌++◌, ℕ, Some, length, map, IfOk, OnOk};
ghost use Rattle.proof_log.specs.Lines.{AllLines};
ghost use Rattle.log_trim.specs.Trimmed.{renamed, with_name, next_id, anew};
ghost use Rattle.log_trim.specs.Marks.{HasRoom, IsBelow, name_in};

use crate::lines::id_of;
use plain_data::List;
use proof_log::{Line, Log};
use std::alloc::{AllocError, Global};

/// So many ids, each its own name.
pub fn own_names(alloc: Global, size: usize) -> Result<Vec<u64>, AllocError>
    ensures length { IfOk result (λ names. length names.items ≡ size) }
    ensures own { IfOk result (λ names. (x : ℕ) → name_in names.items x ≡ x) }
{
    let mut names = Vec::with_capacity(alloc, size)?;
    for id in 0..size {
        names.push(id as u64)?;
    }
    Ok(names)
}

fn name_of(names: &[u64], id: u64) -> u64
    ensures { result ≡ name_in names.now id }
{
    match names.get(id as usize) {
        Some(name) => *name,
        None => id,
    }
}

/// The names of a chain's ids.
fn chain_anew(alloc: Global, names: &[u64], chain: &[u64]) -> Result<List<u64>, AllocError>
    ensures { IfOk result (λ ids. ids ≡ map (name_in names.now) chain.now) }
{
    let mut ids = Vec::with_capacity(alloc, chain.len())?;
    for id in chain {
        ids.push(name_of(names, *id))?;
    }
    Ok(List::from_vec(ids))
}

/// A copy of a line, with another id and its chain's names.
pub fn line_anew(alloc: Global, names: &[u64], id: u64, line: &Line) -> Result<Line, AllocError>
    ensures { IfOk result (λ copy. copy ≡ renamed (name_in names.now) id line.now) }
{
    Ok(match line {
        Line::Header {
            vars,
            clauses,
            bits,
        } => Line::Header {
            vars: *vars,
            clauses: *clauses,
            bits: *bits,
        },
        Line::Learnt { clause, chain, .. } => Line::Learnt {
            id,
            clause: clause.duplicate(alloc)?,
            chain: chain_anew(alloc, names, chain.as_slice())?,
        },
        Line::Zero { bit, .. } => Line::Zero { id, bit: *bit },
        Line::One { bit, chain, .. } => Line::One {
            id,
            bit: *bit,
            chain: chain_anew(alloc, names, chain.as_slice())?,
        },
        Line::Unsat { chain } => Line::Unsat {
            chain: chain_anew(alloc, names, chain.as_slice())?,
        },
        Line::Spent => Line::Spent,
        Line::End => Line::End,
    })
}

/// Names the clause of a line, if it makes one known.
fn note(names: &mut Vec<u64>, id: Option<u64>, name: u64)
    requires { IsBelow (length names.old.items) id }
    ensures length { length names.new.items ≡ length names.old.items }
    ensures named { (x : ℕ) → name_in names.new.items x
        ≡ with_name (name_in names.old.items) id name x }
{
    if let Some(id) = id {
        names[id as usize] = name;
    }
}

/// How many ids there are with that of a line, if it has one.
fn next_id(id: Option<u64>, count: u64) -> u64
    requires { count + 1 < 2 ^ 64 }
    ensures { result ≡ next_id id count }
{
    match id {
        Some(_) => count + 1,
        None => count,
    }
}

/// Puts copies of the lines that stay behind a log, where so many ids were given before.
pub fn push_anew(
    alloc: Global,
    log: &mut Log,
    names: &mut Vec<u64>,
    before: u64,
    lines: &[Line],
    staying: &[bool],
) -> Result<(), AllocError>
    requires rooms { AllLines (HasRoom (length names.old.items)) lines.now }
    requires count { before + length lines.now < 2 ^ 64 }
    requires marked { length staying.now ≡ length lines.now }
    ensures { OnOk result (log.new ≡ log.old
        ++ anew (name_in names.old.items) before lines.now staying.now) }
{
    let mut count = before;
    for (place, line) in lines.iter().enumerate() {
        if staying[place] {
            log.push(line_anew(alloc, names.as_slice(), count + 1, line)?)?;
            let id = id_of(line);
            note(names, id, count + 1);
            count = next_id(id, count);
        }
    }
    Ok(())
}
