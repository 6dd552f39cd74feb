//! Which lines stay, by marks of the clauses that are used.
ghost use Rattle.std.specs.Prelude.{◌≡◌, ◌<◌, ◌||◌, ◌&&◌, ℕ, Bool, length, IfOk};
ghost use Rattle.proof_log.specs.Lines.{AllLines};
ghost use Rattle.log_trim.specs.Trimmed.{stands, chain_of, stays, used_by, staying};
ghost use Rattle.log_trim.specs.Marks.{AreMarks, HasRoom};

use proof_log::Line;
use std::alloc::{AllocError, Global};

/// Marks the clauses of a chain.
fn mark_all(marks: &mut Vec<bool>, ids: &[u64])
    ensures length { length marks.new.items ≡ length marks.old.items }
    ensures marked { (used : ℕ → Bool) → AreMarks marks.old.items used
        → AreMarks marks.new.items (λ x. used x || stands ids.now x) }
{
    for id in ids {
        let place = *id as usize;
        if place < marks.len() {
            marks[place] = true;
        }
    }
}

/// Whether a line stays.
fn stays(marks: &[bool], line: &Line) -> bool
    requires { HasRoom (length marks.now) line.now }
    ensures { (used : ℕ → Bool) → AreMarks marks.now used → result ≡ stays used line.now }
{
    match line {
        Line::Learnt { id, .. } => marks[*id as usize],
        _ => true,
    }
}

/// The ids that a line names.
fn chain_of(line: &Line) -> &[u64]
    ensures { result.now ≡ chain_of line.now }
{
    match line {
        Line::Learnt { chain, .. } => chain.as_slice(),
        Line::One { chain, .. } => chain.as_slice(),
        Line::Unsat { chain } => chain.as_slice(),
        _ => &[],
    }
}

/// Marks what a line uses if it stays, where what the lines behind it use is marked; gives whether
/// it stays.
fn mark_line(marks: &mut Vec<bool>, line: &Line) -> bool
    requires { HasRoom (length marks.old.items) line.now }
    ensures length { length marks.new.items ≡ length marks.old.items }
    ensures stays { (used : ℕ → Bool) → AreMarks marks.old.items used
        → result ≡ stays used line.now }
    ensures marked { (used : ℕ → Bool) → AreMarks marks.old.items used
        → AreMarks marks.new.items (λ x. used x
        || (stays used line.now && stands (chain_of line.now) x)) }
{
    if stays(marks.as_slice(), line) {
        mark_all(marks, chain_of(line));
        return true;
    }
    false
}

/// Which lines stay, where their ids are below a number.
pub fn staying_of(alloc: Global, size: usize, lines: &[Line]) -> Result<Vec<bool>, AllocError>
    requires { AllLines (HasRoom size) lines.now }
    ensures { IfOk result (λ marks. marks.items ≡ staying lines.now) }
{
    let mut marks = vec![in alloc; false; size]?;
    let mut staying = vec![in alloc; true; lines.len()]?;
    for i in 0..lines.len() {
        let place = lines.len() - 1 - i;
        staying[place] = mark_line(&mut marks, &lines[place]);
    }
    Ok(staying)
}
