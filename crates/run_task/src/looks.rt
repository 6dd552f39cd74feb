//! What a command looks at besides its input: a lock file, a certificate.

ghost use Rattle.std.specs.Prelude.{Some, IfOk, IfSome, OnOk};
ghost use Rattle.std.specs.Option.{option_map};
ghost use Rattle.run_input.specs.Bytes.{FailsAt};
ghost use Rattle.run_input.specs.Inputs.{IsPosed};
ghost use Rattle.run_input.specs.Reads.{OnlyReads};
ghost use Rattle.run_input.specs.Stops.{Gives};
ghost use Rattle.run_task.specs.Certificates.{ShowsOf, log_verdict};
ghost use Rattle.run_task.specs.Looks.{FailsAtCheck};
ghost use Rattle.run_task.specs.Shown.{ComparesLock, IsBestLock};
ghost use Rattle.run_task.specs.Tasks.{AcceptanceOf, CheckOf, ComparisonOf, PlanOf, ReportOf, IsComparisonTask, IsPlanTask, IsReportTask, IsReady, IsReadyInput, IsYes};

use crate::task::Task;
use crate::{read_certificate, read_valid_graph, read_verdict};
use outside_desk::Desk;
use run_input::{Input, ReadStop};
use std::alloc::Global;
use std::thread::Threads;

/// What is said of the lock file at a path, as a task.
#[tactic(auto, using(crate::proofs::Stops::judged_stop))]
pub(crate) fn read_report<D: Desk>(
    alloc: Global,
    desk: &mut D,
    lock: &str,
    input: &Input,
) -> Result<Task, ReadStop>
    ensures read { IfSome (D.files desk.new)
        (λ files. Gives result (ReportOf files lock.now input.now.problem)) }
    ensures report { IfOk result IsReportTask }
    ensures path { FailsAt lock.now result }
    ensures only_reads { OnlyReads D.files D.faults D.put_faults desk.old desk.new result }
{
    match read_verdict(alloc, desk, lock, &input.problem) {
        Ok(numbers) => Ok(Task::Report(numbers)),
        Err(stop) => Err(stop),
    }
}

/// What is said of the lock file at a path, and then the comparison of its costs, as a task.
pub(crate) fn read_comparison<D: Desk>(
    alloc: Global,
    desk: &mut D,
    lock: &str,
    input: Input,
) -> Result<Task, ReadStop>
    requires { IsReadyInput input }
    ensures read { IfSome (D.files desk.new)
        (λ files. Gives result (ComparisonOf files lock.now input)) }
    ensures seen { IfOk result (λ task. IfSome (D.files desk.new)
        (λ files. ComparesLock files lock.now input.problem task)) }
    ensures comparison { IfOk result IsComparisonTask }
    ensures ready { IfOk result (λ task. IsReady task) }
    ensures path { FailsAt lock.now result }
    ensures only_reads { OnlyReads D.files D.faults D.put_faults desk.old desk.new result }
{
    match read_verdict(alloc, desk, lock, &input.problem) {
        Ok(numbers) => Ok(Task::Compare(input, numbers)),
        Err(stop) => Err(stop),
    }
}

/// What is said of the lock file at a path, and then the order in which its graph can be built, as
/// a task.
pub(crate) fn read_plan<D: Desk>(
    alloc: Global,
    desk: &mut D,
    lock: &str,
    input: &Input,
) -> Result<Task, ReadStop>
    ensures read { IfSome (D.files desk.new)
        (λ files. Gives result (PlanOf files lock.now input.now.problem)) }
    ensures plan { IfOk result IsPlanTask }
    ensures ready { IfOk result (λ task. IsReady task) }
    ensures path { FailsAt lock.now result }
    ensures only_reads { OnlyReads D.files D.faults D.put_faults desk.old desk.new result }
{
    match read_valid_graph(alloc, desk, lock, &input.problem) {
        Ok(graph) => Ok(Task::Plan(graph)),
        Err(stop) => Err(stop),
    }
}

/// What is said of the certificate at a path, of a graph with these costs or of none, as a task.
#[tactic(auto, using(crate::proofs::Stops::certified_stop))]
pub(crate) fn read_acceptance<R: Threads + Sync, D: Desk>(
    rt: &R,
    alloc: Global,
    desk: &mut D,
    cert: &str,
    input: &Input,
    numbers: Option<&[u64]>,
) -> Result<Task, ReadStop>
    requires { IsPosed input.now }
    ensures read { IfSome (D.files desk.new)
        (λ files. Gives result (AcceptanceOf log_verdict files cert.now input.now.problem
        (option_map (λ n. n.now) numbers.entry))) }
    ensures shown { OnOk result (IfSome (D.files desk.new)
        (λ files. ShowsOf input.now.problem (option_map (λ n. n.now) numbers.entry))) }
    ensures yes { IfOk result IsYes }
    ensures path { FailsAt cert.now result }
    ensures only_reads { OnlyReads D.files D.faults D.put_faults desk.old desk.new result }
{
    match read_certificate(
        rt,
        alloc,
        desk,
        cert,
        &input.problem,
        &input.closure,
        numbers,
    ) {
        Ok(()) => Ok(Task::Accepted),
        Err(stop) => Err(stop),
    }
}

/// What is said of the lock file at a path, and then of the certificate of its graph, as a task.
pub(crate) fn read_check<R: Threads + Sync, D: Desk>(
    rt: &R,
    alloc: Global,
    desk: &mut D,
    lock: &str,
    cert: &str,
    input: &Input,
) -> Result<Task, ReadStop>
    requires { IsPosed input.now }
    ensures read { IfSome (D.files desk.new)
        (λ files. Gives result (CheckOf log_verdict files lock.now cert.now input.now.problem)) }
    ensures shown { OnOk result (IfSome (D.files desk.new)
        (λ files. IsBestLock files lock.now input.now.problem)) }
    ensures yes { IfOk result IsYes }
    ensures path { FailsAtCheck (D.files desk.new) lock.now cert.now input.now.problem result }
    ensures only_reads { OnlyReads D.files D.faults D.put_faults desk.old desk.new result }
{
    let numbers = read_verdict(alloc, desk, lock, &input.problem)?;
    read_acceptance(rt, alloc, desk, cert, input, Some(numbers.as_slice()))
}
