//! Which clauses a log uses, by marks.
ghost use Rattle.std.specs.Prelude.{◌≡◌, ◌<◌, ◌||◌, ◌&&◌, ℕ, Bool, Some, length, slice_get, IfOk};
ghost use Rattle.proof_log.specs.Lines.{AllLines};
ghost use Rattle.explain_failure.specs.Uses.{stands, chain_of, is_user, used_by};
ghost use Rattle.explain_failure.specs.Marks.{AreMarks, HasRoom};

use proof_log::Line;
use std::alloc::{AllocError, Global};

/// Marks the clauses of a chain.
fn mark_all(marks: &mut Vec<bool>, ids: &[u64])
    ensures length { length marks.new.items ≡ length marks.old.items }
    ensures marked { (used : ℕ → Bool) → AreMarks marks.old.items used
        → AreMarks marks.new.items (λ x. used x || stands ids.now x) }
{
    for id in ids {
        let place = *id as usize;
        if place < marks.len() {
            marks[place] = true;
        }
    }
}

/// Whether a clause is marked.
fn is_marked(marks: &[bool], id: u64) -> bool
    requires { id < length marks.now }
    ensures { slice_get marks.now id ≡ Some result }
{
    marks[id as usize]
}

/// Marks what a line uses, where what the lines behind it use is marked.
fn mark_line(marks: &mut Vec<bool>, line: &Line)
    requires { HasRoom (length marks.old.items) line.now }
    ensures length { length marks.new.items ≡ length marks.old.items }
    ensures marked { (used : ℕ → Bool) → AreMarks marks.old.items used
        → AreMarks marks.new.items
        (λ x. used x || (is_user line.now used && stands (chain_of line.now) x)) }
{
    match line {
        Line::Unsat { chain } => mark_all(marks, chain.as_slice()),
        Line::Learnt { id, chain, .. } => {
            if is_marked(marks.as_slice(), *id) {
                mark_all(marks, chain.as_slice());
            }
        }
        _ => {}
    }
}

/// Marks what the lines use, of clauses with ids below a number.
pub fn marks_of(alloc: Global, size: usize, lines: &[Line]) -> Result<Vec<bool>, AllocError>
    requires { AllLines (HasRoom size) lines.now }
    ensures length { IfOk result (λ marks. length marks.items ≡ size) }
    ensures marked { IfOk result (λ marks. AreMarks marks.items (used_by lines.now)) }
{
    let mut marks = vec![in alloc; false; size]?;
    for i in 0..lines.len() {
        let line = &lines[lines.len() - 1 - i];
        mark_line(&mut marks, line);
    }
    Ok(marks)
}
