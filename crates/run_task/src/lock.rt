//! The reading of a lock file.

ghost use Rattle.std.specs.Prelude.{◌≡◌, IfOk, IfSome, Ok};
ghost use Rattle.run_input.specs.Stages.{Is};
ghost use Rattle.run_input.specs.Reads.{OnlyReads};
ghost use Rattle.run_input.specs.Stops.{Gives, EndsInReadFault};
ghost use Rattle.run_input.specs.Bytes.{FailsAt};
ghost use Rattle.run_task.specs.Locks.{LockIn, LockAt, NamedAt, named_lock};

use graph_judge::name_virtuals;
use lockfile::{Lock, LockFault, read_lock};
use outside_desk::Desk;
use problem::Problem;
use run_input::{ReadStop, Refusal, WholeFile, read_bytes};
use std::alloc::{AllocError, Global};

/// The lock file that bytes are.
fn lock_in(alloc: Global, bytes: &[u8]) -> Result<Lock, ReadStop>
    ensures read { Gives result (LockIn bytes.now) }
    ensures no_fault { EndsInReadFault result → ⊥ }
{
    match read_lock(alloc, bytes) {
        Ok(lock) => Ok(lock),
        Err(LockFault::OutOfMemory) => Err(ReadStop::NoMemory),
        Err(fault) => Err(ReadStop::Refused(Refusal::BadLock(fault))),
    }
}

/// The lock file at a path.
///
/// # Errors
///
/// `MissingInput` where there is no such file, `LockTooLarge` from 2^63 bytes on, `BadLock` with
/// the first fault. `Fault` where the desk failed, with the path.
fn read_lock_at<D: Desk>(alloc: Global, desk: &mut D, path: &str) -> Result<Lock, ReadStop>
    ensures read { IfSome (D.files desk.new) (λ files. Gives result (LockAt files path.now)) }
    ensures path { FailsAt path.now result }
    ensures only_reads { OnlyReads D.files D.faults D.put_faults desk.old desk.new result }
{
    let bytes = read_bytes(alloc, desk, path, WholeFile::Lock)?;
    lock_in(alloc, bytes.as_slice())
}

/// The lock file with what its edges name: in the format's first version they name nothing, and
/// the hashes stay those of that text.
#[tactic(auto, unfolding(crate::specs::Locks::named_lock))]
fn named_lock(alloc: Global, problem: &Problem, lock: Lock) -> Result<Lock, AllocError>
    ensures { IfOk result (λ made. made ≡ named_lock problem.now lock) }
{
    if lock.version != 1 {
        return Ok(lock);
    }
    let graph = name_virtuals(alloc, problem, &lock.graph)?;
    Ok(Lock {
        graph,
        roots: lock.roots,
        hashes: lock.hashes,
        version: lock.version,
    })
}

fn named(alloc: Global, problem: &Problem, lock: Lock) -> Result<Lock, ReadStop>
    ensures read { Gives result (Is (Ok (named_lock problem.now lock))) }
    ensures no_fault { EndsInReadFault result → ⊥ }
{
    Ok(named_lock(alloc, problem, lock)?)
}

/// The lock file at a path, whose edges name their virtuals.
///
/// # Errors
///
/// Those of `read_lock_at`.
pub(crate) fn read_named_lock<D: Desk>(
    alloc: Global,
    desk: &mut D,
    path: &str,
    problem: &Problem,
) -> Result<Lock, ReadStop>
    ensures read { IfSome (D.files desk.new)
        (λ files. Gives result (NamedAt files path.now problem.now)) }
    ensures path { FailsAt path.now result }
    ensures only_reads { OnlyReads D.files D.faults D.put_faults desk.old desk.new result }
{
    let lock = read_lock_at(alloc, desk, path)?;
    named(alloc, problem, lock)
}
