//! The reading of a certificate, piece by piece.

ghost use Rattle.std.specs.Prelude.{◌≡◌, ◌≤◌, ◌<◌, ◌-◌, min, length, IfOk, IfSome};
ghost use Rattle.std.specs.FinMap.{get};
ghost use Rattle.log_checker.specs.Steps.{CheckerState};
ghost use Rattle.run_answers.specs.Reads.{OnlyReads};
ghost use Rattle.run_task.specs.Certificates.{most};
ghost use Rattle.run_input.specs.Bytes.{FailsAt};
ghost use Rattle.run_task.specs.Pieces.{GivesPiece, TakesNext, TakesAll, Moves};

use certified::TextChecker;
use outside_desk::{Desk, DeskFault};
use plain_data::Word;
use run_answers::{ReadStop, Refusal};
use std::alloc::Global;
use std::thread::Threads;

/// The most bytes of a certificate: 2^63 - 1.
const LIMIT: u64 = (1 << 63) - 1;

/// What one piece more leaves.
pub(crate) enum Next {
    /// More is to be read, from this place on.
    More(u64),
    /// What was read decides.
    End,
    /// There are more bytes than a certificate may have.
    Long,
}

/// Reads a piece of the file at a path.
fn read_piece<D: Desk>(
    alloc: Global,
    desk: &mut D,
    path: &str,
    from: u64,
    out: &mut [u8],
) -> Result<usize, ReadStop>
    ensures bound { IfOk result (λ n. n ≤ length out.new) }
    ensures read { IfSome (D.files desk.new)
        (λ files. GivesPiece (get files path.now) from out.new path.now result) }
    ensures path { FailsAt path.now result }
    ensures only_reads { OnlyReads D.files D.faults D.put_faults desk.old desk.new result }
{
    match desk.read_at(alloc, path, from, out) {
        Ok(count) => Ok(count),
        Err(DeskFault::Missing) => {
            let path = Word::new(alloc, path)?;
            Err(ReadStop::Refused(Refusal::MissingInput(path)))
        }
        Err(DeskFault::Failed) => Err(ReadStop::Fault(Word::new(alloc, path)?)),
        Err(DeskFault::OutOfMemory) => Err(ReadStop::NoMemory),
    }
}

/// How many of so many bytes behind a place are within the limit.
fn within(from: u64, count: usize) -> usize
    requires { from ≤ most }
    ensures { result ≡ min count (most - from) }
{
    let room = LIMIT - from;
    if count as u64 <= room {
        count
    } else {
        room as usize
    }
}

/// Reads a piece from a place on, and has it checked.
pub(crate) fn take_next<R: Threads + Sync, D: Desk>(
    rt: &R,
    alloc: Global,
    desk: &mut D,
    path: &str,
    from: u64,
    checker: &mut TextChecker,
    piece: &mut [u8],
) -> Result<Next, ReadStop>
    requires within { from ≤ most }
    requires room { 0 < length piece.old }
    ensures moves { IfOk result (λ next. Moves from next) }
    ensures taken { IfSome (D.files desk.new) (λ files. (s : CheckerState)
        → TakesNext s (get files path.now) from path.now checker.old checker.new result) }
    ensures path { FailsAt path.now result }
    ensures only_reads { OnlyReads D.files D.faults D.put_faults desk.old desk.new result }
{
    let count = read_piece(alloc, desk, path, from, piece)?;
    if count == 0 {
        return Ok(Next::End);
    }
    let taken = within(from, count);
    if !checker.take(rt, &piece[..taken])? {
        return Ok(Next::End);
    }
    if taken < count {
        return Ok(Next::Long);
    }
    Ok(Next::More(from + taken as u64))
}

/// Reads the file at a path to its end, or to where it is decided, and has it checked. Answers
/// whether it is; it is not where there are more bytes than a certificate may have.
pub(crate) fn take_all<R: Threads + Sync, D: Desk>(
    rt: &R,
    alloc: Global,
    desk: &mut D,
    path: &str,
    checker: &mut TextChecker,
    piece: &mut [u8],
) -> Result<bool, ReadStop>
    requires { 0 < length piece.old }
    ensures taken { IfSome (D.files desk.new) (λ files. (s : CheckerState)
        → TakesAll s (get files path.now) path.now checker.old checker.new result) }
    ensures path { FailsAt path.now result }
    ensures only_reads { OnlyReads D.files D.faults D.put_faults desk.old desk.new result }
{
    let mut from: u64 = 0;
    'pieces: loop {
        match take_next(rt, alloc, desk, path, from, checker, piece) {
            Ok(Next::More(place)) => from = place,
            Ok(Next::End) => return Ok(true),
            Ok(Next::Long) => return Ok(false),
            Err(stop) => return Err(stop),
        }
    }
}
