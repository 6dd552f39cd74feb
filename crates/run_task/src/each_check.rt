//! The check of the lock file and the certificate of each root by itself.

ghost use Rattle.std.specs.Prelude.{IfOk, IfSome, OnOk};
ghost use Rattle.problem.specs.Problems.{each_alone};
ghost use Rattle.run_input.specs.Inputs.{IsPosed};
ghost use Rattle.run_input.specs.Reads.{OnlyReads};
ghost use Rattle.run_input.specs.Stages.{InRoot};
ghost use Rattle.run_input.specs.Stops.{Gives};
ghost use Rattle.run_task.specs.Certificates.{log_verdict};
ghost use Rattle.run_task.specs.Looks.{FailsAtCheck, FailsAtRoots};
ghost use Rattle.run_task.specs.Places.{cert_at, lock_at};
ghost use Rattle.run_task.specs.Shown.{AreBestLocks, IsBestLock};
ghost use Rattle.run_task.specs.Tasks.{CheckOf, ChecksOf, IsYes};

use crate::alone::alone_input;
use crate::looks::read_check;
use crate::places::{cert_at, lock_at};
use crate::task::Task;
use outside_desk::Desk;
use run_input::{Input, ReadStop};
use std::alloc::Global;
use std::thread::Threads;

/// What is said of the lock file and the certificate of the root with this number.
fn read_check_at<R: Threads + Sync, D: Desk>(
    rt: &R,
    alloc: Global,
    desk: &mut D,
    dir: &str,
    root: u64,
    one: &Input,
) -> Result<Task, ReadStop>
    requires { IsPosed one.now }
    ensures read { IfSome (D.files desk.new)
        (λ files. Gives result (InRoot root (CheckOf log_verdict files (lock_at dir.now root)
        (cert_at dir.now root) one.now.problem))) }
    ensures shown { OnOk result (IfSome (D.files desk.new)
        (λ files. IsBestLock files (lock_at dir.now root) one.now.problem)) }
    ensures yes { IfOk result IsYes }
    ensures path { FailsAtCheck (D.files desk.new) (lock_at dir.now root) (cert_at dir.now root)
        one.now.problem result }
    ensures only_reads { OnlyReads D.files D.faults D.put_faults desk.old desk.new result }
{
    let lock = lock_at(alloc, dir, root)?;
    let cert = cert_at(alloc, dir, root)?;
    match read_check(rt, alloc, desk, lock.as_str(), cert.as_str(), one) {
        Ok(task) => Ok(task),
        Err(stop) => Err(stop.in_root(root)),
    }
}

/// What is said of the lock files and the certificates of all roots, each by itself, as a task: the
/// first root of which one is refused gives the refusal.
pub(crate) fn read_each_check<R: Threads + Sync, D: Desk>(
    rt: &R,
    alloc: Global,
    desk: &mut D,
    dir: &str,
    input: &Input,
) -> Result<Task, ReadStop>
    requires { IsPosed input.now }
    ensures read { IfSome (D.files desk.new)
        (λ files. Gives result (ChecksOf log_verdict files dir.now 0
        (each_alone input.now.problem))) }
    ensures shown { OnOk result (IfSome (D.files desk.new)
        (λ files. AreBestLocks files dir.now 0 (each_alone input.now.problem))) }
    ensures yes { IfOk result IsYes }
    ensures path { FailsAtRoots (D.files desk.new) dir.now (each_alone input.now.problem) result }
    ensures only_reads { OnlyReads D.files D.faults D.put_faults desk.old desk.new result }
{
    for place in 0..input.problem.roots().len() {
        let one = alone_input(alloc, input, place)?;
        match read_check_at(rt, alloc, desk, dir, place as u64, &one) {
            Ok(task) => {
                drop(one);
                drop(task);
            }
            Err(stop) => return Err(stop),
        }
    }
    Ok(Task::Accepted)
}
