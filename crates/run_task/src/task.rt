//! The reading of a task.

ghost use Rattle.std.specs.Prelude.{◌≡◌, true, false, All, Ok, Some, None, IfOk, IfSome};
ghost use Rattle.std.specs.Str.{IsUtf8};
ghost use Rattle.run_input.specs.Inputs.{IsPosed};
ghost use Rattle.spec_grammar.specs.Canonical.{spec_text};
ghost use Rattle.run_input.specs.Reads.{OnlyReads};
ghost use Rattle.run_input.specs.Stops.{Gives, EndsInReadFault};
ghost use Rattle.run_task.specs.Certificates.{log_verdict};
ghost use Rattle.trial_input.specs.Inputs.{input_files};
ghost use Rattle.run_task.specs.Looks.{FailsAtLook, FailsAtTask};
ghost use Rattle.run_task.specs.Shown.{IsSeen, IsSeenOver, IsShownOver, SeenBy};
ghost use Rattle.run_task.specs.Tasks.{TaskBy, Over, OverUnless, Named, IsOf, IsReady, HasSpecs, HasSpecsBy, HasRoots, is_search, made_for};
ghost use Rattle.run_input.specs.Roots.{RootsOf};

use crate::each_check::read_each_check;
use crate::looks::{read_acceptance, read_check, read_comparison, read_plan, read_report};
use graph_core::Graph;
use graph_rules::NUMBERS;
use outside_desk::Desk;
use run_input::{Command, Input, Query, ReadStop, Work, read_input, read_query};
use spec_grammar::{reading_laws, writing_laws};
use std::alloc::Global;
use std::thread::Threads;
use trial_input::make;

/// What a run is to answer.
#[derive(Drop)]
pub enum Task {
    /// The best graph of the problem is to be found.
    Solve(Input),
    /// The lock file's graph is valid, and has this cost vector.
    Report([u64; NUMBERS]),
    /// The certificate is right.
    Accepted,
    /// The best graph of each root by itself is to be found.
    Each(Input),
    /// It is to be said whether there is a graph, and else why there is none.
    Explain(Input),
    /// It is to be said whether there is a graph, and else a list of demands of which none can be
    /// left out, with the graphs that show it.
    Reasons(Input),
    /// The best graph of a made input is to be found.
    Try(Input),
    /// The lock file's graph is valid and has this cost vector: it is to be said whether a valid
    /// graph costs less.
    Compare(Input, [u64; NUMBERS]),
    /// The installed packages that meet a condition are to be found.
    Find(Query),
    /// The graph is that of the lock file, and valid: it is to be said in which order it can be
    /// built.
    Plan(Graph),
}

/// A command's own work over what was read.
fn task_by<R: Threads + Sync, D: Desk>(
    rt: &R,
    alloc: Global,
    desk: &mut D,
    command: &Command<'_>,
    input: Input,
) -> Result<Task, ReadStop>
    requires texts { All (λ spec. IsUtf8 (spec_text spec)) input.problem.roots }
    requires posed { IsPosed input }
    requires roots { RootsOf command.now.spec (Ok input.problem.roots) }
    requires no_search { is_search command.now.work ≡ false }
    ensures read { IfSome (D.files desk.new)
        (λ files. Gives result (TaskBy log_verdict command.now.work files command.now input)) }
    ensures seen { IfOk result (λ task. IfSome (D.files desk.new)
        (λ files. SeenBy command.now.work task files command.now input.problem)) }
    ensures work { IfOk result (λ task. IsOf command.now.work task) }
    ensures ready { IfOk result (λ task. IsReady task) }
    ensures roots { IfOk result (λ task. HasRoots command.now.spec task) }
    ensures path { FailsAtLook command.now.work (D.files desk.new) command.now
        input.problem result }
    ensures only_reads { OnlyReads D.files D.faults D.put_faults desk.old desk.new result }
{
    match command.work {
        Work::Concretize => Ok(Task::Solve(input)),
        Work::Each => Ok(Task::Each(input)),
        Work::CheckEach => {
            let task = read_each_check(rt, alloc, desk, command.lock, &input);
            drop(input);
            task
        }
        Work::Explain => Ok(Task::Explain(input)),
        Work::Reasons => Ok(Task::Reasons(input)),
        Work::Trial { .. } => Ok(Task::Try(input)),
        Work::Judge => {
            let task = read_report(alloc, desk, command.lock, &input);
            drop(input);
            task
        }
        Work::Check => {
            let task = read_check(rt, alloc, desk, command.lock, command.cert, &input);
            drop(input);
            task
        }
        Work::Fresh => read_comparison(alloc, desk, command.lock, input),
        Work::Plan => {
            let task = read_plan(alloc, desk, command.lock, &input);
            drop(input);
            task
        }
        Work::Refute => {
            let task = read_acceptance(rt, alloc, desk, command.cert, &input, None);
            drop(input);
            task
        }
        Work::Find => unreachable!(),
    }
}

/// The task of a command that poses a problem, over the files of a desk.
#[tactic(auto, using(crate::proofs::Paths::of_input))]
fn read_posed<R: Threads + Sync, D: Desk>(
    rt: &R,
    alloc: Global,
    desk: &mut D,
    command: &Command<'_>,
) -> Result<Task, ReadStop>
    requires work { is_search command.now.work ≡ false }
    ensures read { IfSome (D.files desk.new)
        (λ files. Gives result (OverUnless log_verdict false files command.now)) }
    ensures seen { IfOk result (λ task. IfSome (D.files desk.new)
        (λ files. IsShownOver (SeenBy command.now.work task) files command.now)) }
    ensures work { IfOk result (λ task. IsOf command.now.work task) }
    ensures ready { IfOk result (λ task. IsReady task) }
    ensures roots { IfOk result (λ task. HasRoots command.now.spec task) }
    ensures specs { IfOk result (λ task. HasSpecsBy false command.now.spec) }
    ensures path { FailsAtTask (D.files desk.new) command.now result }
    ensures only_reads { OnlyReads D.files D.faults D.put_faults desk.old desk.new result }
{
    reading_laws();
    writing_laws();
    let input = read_input(rt, alloc, desk, command)?;
    task_by(rt, alloc, desk, command, input)
}

/// The task of a command that looks for installed packages, over the files of a desk.
#[tactic(auto, using(crate::proofs::Paths::of_input))]
fn read_search<R: Threads + Sync, D: Desk>(
    rt: &R,
    alloc: Global,
    desk: &mut D,
    command: &Command<'_>,
) -> Result<Task, ReadStop>
    ensures read { IfSome (D.files desk.new)
        (λ files. Gives result (OverUnless log_verdict true files command.now)) }
    ensures work { IfOk result (λ task. IsOf Work.Find task) }
    ensures ready { IfOk result (λ task. IsReady task) }
    ensures roots { IfOk result (λ task. HasRoots command.now.spec task) }
    ensures specs { IfOk result (λ task. HasSpecsBy true command.now.spec) }
    ensures path { FailsAtTask (D.files desk.new) command.now result }
    ensures only_reads { OnlyReads D.files D.faults D.put_faults desk.old desk.new result }
{
    match read_query(rt, alloc, desk, command) {
        Ok(query) => Ok(Task::Find(query)),
        Err(stop) => Err(stop),
    }
}

/// Whether installed packages are looked for.
fn is_search(work: Work) -> bool
    ensures { result ≡ is_search work }
{
    match work {
        Work::Find => true,
        Work::Concretize
        | Work::Judge
        | Work::Check
        | Work::Fresh
        | Work::Refute
        | Work::Explain
        | Work::Reasons
        | Work::Plan
        | Work::Each
        | Work::CheckEach
        | Work::Trial { .. } => false,
    }
}

/// The task of a command over the files of a desk.
fn read_over<R: Threads + Sync, D: Desk>(
    rt: &R,
    alloc: Global,
    desk: &mut D,
    command: &Command<'_>,
) -> Result<Task, ReadStop>
    ensures read { IfSome (D.files desk.new)
        (λ files. Gives result (Over log_verdict files command.now)) }
    ensures seen { IfOk result (λ task. IfSome (D.files desk.new)
        (λ files. IsSeenOver files command.now task)) }
    ensures work { IfOk result (λ task. IsOf command.now.work task) }
    ensures ready { IfOk result (λ task. IsReady task) }
    ensures roots { IfOk result (λ task. HasRoots command.now.spec task) }
    ensures specs { IfOk result (λ task. HasSpecs command.now) }
    ensures path { FailsAtTask (D.files desk.new) command.now result }
    ensures only_reads { OnlyReads D.files D.faults D.put_faults desk.old desk.new result }
{
    if is_search(command.work) {
        read_search(rt, alloc, desk, command)
    } else {
        read_posed(rt, alloc, desk, command)
    }
}

/// The number of packages and the seed of a trial.
fn made_for(work: Work) -> Option<(u64, u64)>
    ensures { result ≡ made_for work }
{
    match work {
        Work::Trial { packages, seed } => Some((packages, seed)),
        Work::Concretize
        | Work::Judge
        | Work::Check
        | Work::Fresh
        | Work::Refute
        | Work::Explain
        | Work::Reasons
        | Work::Find
        | Work::Each
        | Work::CheckEach
        | Work::Plan => None,
    }
}

/// The task of a command over files that are made.
fn read_made<R: Threads + Sync>(
    rt: &R,
    alloc: Global,
    command: &Command<'_>,
    packages: u64,
    seed: u64,
) -> Result<Task, ReadStop>
    ensures read { Gives result (Over log_verdict (input_files packages seed) command.now) }
    ensures seen { IfOk result (λ task. IsSeenOver (input_files packages seed) command.now task) }
    ensures work { IfOk result (λ task. IsOf command.now.work task) }
    ensures ready { IfOk result (λ task. IsReady task) }
    ensures roots { IfOk result (λ task. HasRoots command.now.spec task) }
    ensures specs { IfOk result (λ task. HasSpecs command.now) }
    ensures no_fault { EndsInReadFault result → ⊥ }
{
    let mut made = make(alloc, packages, seed)?;
    let task = read_over(rt, alloc, &mut made, command);
    drop(made);
    task
}

/// The task of a command over the desk's files; of a trial, over files that are made.
///
/// # Errors
///
/// The first refusal that is due, in the order of work: those of `read_input`, and then those of
/// the command's own work; of a command that looks for installed packages those of `read_query`.
/// `Fault` where the desk failed.
pub fn read_task<R: Threads + Sync, D: Desk>(
    rt: &R,
    alloc: Global,
    desk: &mut D,
    command: &Command<'_>,
) -> Result<Task, ReadStop>
    ensures read { IfSome (D.files desk.new)
        (λ files. Gives result (Named log_verdict files command.now)) }
    ensures seen { IfOk result (λ task. IfSome (D.files desk.new)
        (λ files. IsSeen files command.now task)) }
    ensures work { IfOk result (λ task. IsOf command.now.work task) }
    ensures ready { IfOk result (λ task. IsReady task) }
    ensures roots { IfOk result (λ task. HasRoots command.now.spec task) }
    ensures specs { IfOk result (λ task. HasSpecs command.now) }
    ensures path { FailsAtTask (D.files desk.new) command.now result }
    ensures only_reads { OnlyReads D.files D.faults D.put_faults desk.old desk.new result }
{
    match made_for(command.work) {
        Some((packages, seed)) => read_made(rt, alloc, command, packages, seed),
        None => read_over(rt, alloc, desk, command),
    }
}
