//! The answer of a run.

ghost use Rattle.std.specs.Prelude.{◌≡◌, ◌⊎◌, ℕ, List, [], Option, IfOk, OnOk};
ghost use Rattle.outside_desk.specs.Causes.{Counts};
ghost use Rattle.outside_desk.specs.Files.{Files, and_said};
ghost use Rattle.run_task.specs.Stops.{EndsInPutFault, EndsInOutputFault};
ghost use Rattle.run_task.specs.Tasks.{IsReady};
ghost use Rattle.run_task.specs.declared.task.Task.TheVariants as tasks;
ghost use Rattle.run_output.specs.Answers.{KeepsWhole, Writes};
ghost use Rattle.run_output.specs.Evidence.{evidence};
ghost use Rattle.run_output.specs.Kept.{KeepsAny};
ghost use Rattle.run_output.specs.Told.{Tells};

use crate::comparison::of_comparison;
use crate::each_found::write_each;
use crate::find::{find, log_of};
use crate::found::write_found;
use crate::least_said::of_least_reasons;
use crate::order::of_graph;
use crate::packages::of_query;
use crate::said::{Said, of_certificate, of_reasons, of_trial, of_verdict};
use crate::told::say;
use outside_desk::{Desk, Sink};
use proof_log::Log;
use run_task::{Input, Progress, Task, WriteStop};
use std::alloc::Global;
use std::thread::Threads;

/// What a task came to.
#[derive(Clone, Copy, Debug, PartialEq, Eq)]
pub enum Outcome {
    /// There is a graph, or it was judged.
    Solved,
    /// There is none.
    Unsolved,
    /// The budget was spent.
    Undecided,
    /// The lock file is right, and a better graph was found.
    Stale,
}

/// Finds and writes the answer of a problem.
fn write_best<D: Desk, O: Sink, P: Progress>(
    alloc: Global,
    input: &Input,
    lock: &str,
    cert: &str,
    desk: &mut D,
    out: &mut O,
    kept: &mut Log,
    progress: &mut P,
) -> Result<Outcome, WriteStop>
    requires ready { IsReady (tasks.Solve input.now) }
    requires empty { kept.old ≡ [] }
    ensures left { Writes evidence lock.now cert.now (tasks.Solve input.now) (D.files desk.old)
        (D.files desk.new) (O.said out.old) (O.said out.new) result }
    ensures held { (D.files desk.new ≡ D.files desk.old)
        ⊎ KeepsWhole evidence lock.now cert.now (tasks.Solve input.now) (D.files desk.old)
        (D.files desk.new) }
    ensures faults { D.faults desk.new ≡ D.faults desk.old }
    ensures put { Counts (D.put_faults desk.old) (D.put_faults desk.new) (EndsInPutFault result) }
    ensures said { Counts (O.faults out.old) (O.faults out.new) (EndsInOutputFault result) }
    ensures steady { OnOk result ((D.put_faults desk.new ≡ D.put_faults desk.old)
        × (O.faults out.new ≡ O.faults out.old)) }
    ensures kept { KeepsAny lock.now cert.now (tasks.Solve input.now) (D.files desk.old)
        (D.files desk.new) (O.said out.old) (O.said out.new) kept.new result }
{
    let answer = find(alloc, input, progress)?;
    let written = write_found(alloc, &input.problem, &answer, lock, cert, desk, out);
    *kept = log_of(answer);
    written
}

/// Says what is said of a task that puts no file.
#[tactic(auto, using(crate::proofs::Tellings::told_writes, crate::proofs::Tellings::told_stops))]
fn tell<O: Sink>(alloc: Global, _task: &Task, said: Said, out: &mut O) -> Result<Outcome, WriteStop>
    requires { Tells evidence _task.now said.outcome said.text.items }
    ensures left { (lock cert : List ℕ) (files : Option Files)
        → Writes evidence lock cert _task.now files files (O.said out.old) (O.said out.new) result }
    ensures cause { Counts (O.faults out.old) (O.faults out.new) (EndsInOutputFault result) }
    ensures steady { OnOk result (O.faults out.new ≡ O.faults out.old) }
    ensures no_put { EndsInPutFault result → ⊥ }
    ensures outcome { IfOk result (λ outcome. outcome ≡ said.outcome) }
    ensures out { IfOk result (λ outcome. O.said out.new ≡ and_said (O.said out.old)
        said.text.items) }
{
    say(alloc, out, said.text.as_slice())?;
    Ok(said.outcome)
}

/// Writes the answer of a task: of a problem to solve the certificate at `cert`, unless that is
/// `-`, then the lock file at `lock` where there is a graph, and then what is said; of the problem
/// of each root by itself the files of all roots in the folder that `lock` then is, and what is
/// said; of any other task what is said alone. The log of a search that answered is kept, and
/// `progress` is told how far it is.
pub fn write_answer<R: Threads + Sync, D: Desk, O: Sink, P: Progress>(
    rt: &R,
    alloc: Global,
    task: &Task,
    lock: &str,
    cert: &str,
    desk: &mut D,
    out: &mut O,
    kept: &mut Log,
    progress: &mut P,
) -> Result<Outcome, WriteStop>
    requires ready { IsReady task.now }
    requires empty { kept.old ≡ [] }
    ensures left { Writes evidence lock.now cert.now task.now (D.files desk.old) (D.files desk.new)
        (O.said out.old) (O.said out.new) result }
    ensures held { (D.files desk.new ≡ D.files desk.old)
        ⊎ KeepsWhole evidence lock.now cert.now task.now (D.files desk.old) (D.files desk.new) }
    ensures faults { D.faults desk.new ≡ D.faults desk.old }
    ensures put { Counts (D.put_faults desk.old) (D.put_faults desk.new) (EndsInPutFault result) }
    ensures said { Counts (O.faults out.old) (O.faults out.new) (EndsInOutputFault result) }
    ensures steady { OnOk result ((D.put_faults desk.new ≡ D.put_faults desk.old)
        × (O.faults out.new ≡ O.faults out.old)) }
    ensures kept { KeepsAny lock.now cert.now task.now (D.files desk.old) (D.files desk.new)
        (O.said out.old) (O.said out.new) kept.new result }
{
    match task {
        Task::Solve(input) => write_best(alloc, input, lock, cert, desk, out, kept, progress),
        Task::Each(input) => write_each(rt, alloc, input, lock, desk, out, kept, progress),
        Task::Report(numbers) => {
            let said = of_verdict(alloc, numbers)?;
            tell(alloc, task, said, out)
        }
        Task::Accepted => {
            let said = of_certificate(alloc)?;
            tell(alloc, task, said, out)
        }
        Task::Explain(input) => {
            let said = of_reasons(alloc, input, kept, progress)?;
            tell(alloc, task, said, out)
        }
        Task::Reasons(input) => {
            let said = of_least_reasons(alloc, input, kept, progress)?;
            tell(alloc, task, said, out)
        }
        Task::Try(input) => {
            let said = of_trial(alloc, input, kept, progress)?;
            tell(alloc, task, said, out)
        }
        Task::Compare(input, numbers) => {
            let said = of_comparison(alloc, input, numbers, progress)?;
            tell(alloc, task, said, out)
        }
        Task::Find(query) => {
            let said = of_query(alloc, query)?;
            tell(alloc, task, said, out)
        }
        Task::Plan(graph) => {
            let said = of_graph(alloc, graph)?;
            tell(alloc, task, said, out)
        }
    }
}
