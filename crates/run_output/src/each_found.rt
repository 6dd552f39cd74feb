//! Each root solved by itself, and the answers of all written.

ghost use Rattle.std.specs.Prelude.{◌≡◌, ◌⊎◌, ℕ, List as Items, [], All, IfOk, OnOk};
ghost use Rattle.outside_desk.specs.Causes.{Counts};
ghost use Rattle.problem.specs.Problems.{each_alone};
ghost use Rattle.root_graphs.specs.Each.{IsSolvable};
ghost use Rattle.run_task.specs.Stops.{EndsInPutFault, EndsInOutputFault};
ghost use Rattle.run_task.specs.Tasks.{IsReady};
ghost use Rattle.run_task.specs.declared.task.Task.TheVariants as tasks;
ghost use Rattle.run_output.specs.Answers.{KeepsWhole, Writes};
ghost use Rattle.run_output.specs.Each.{AreAnswersOf};
ghost use Rattle.run_output.specs.Evidence.{evidence};
ghost use Rattle.run_output.specs.Kept.{KeepsAny};

use crate::answer::Outcome;
use crate::each_put::{log_of_all, write_found_each};
use crate::told::budget_of;
use outside_desk::{Desk, Sink};
use problem::Problem;
use proof_log::Log;
use root_graphs::{OpenGate, best_of_each};
use run_task::{Answer, Input, Progress, Stage, WriteStop, alone_laws};
use std::alloc::{AllocError, Global};
use std::thread::Threads;

/// The problem of each root by itself. They share all but that.
fn problems_of(alloc: Global, input: &Input) -> Result<Vec<Problem>, AllocError>
    requires { IsReady (tasks.Each input.now) }
    ensures apart { IfOk result (λ problems. problems.items ≡ each_alone input.now.problem) }
    ensures solvable { IfOk result (λ problems. All IsSolvable problems.items) }
{
    alone_laws();
    let mut problems = Vec::new(alloc);
    for place in 0..input.problem.roots().len() {
        problems.push(input.problem.alone(alloc, place)?)?;
    }
    Ok(problems)
}

/// The answer of each, within the budget of the settings.
fn find_each<R: Threads + Sync, P: Progress>(
    rt: &R,
    alloc: Global,
    input: &Input,
    problems: &[Problem],
    progress: &mut P,
) -> Result<Vec<Answer>, AllocError>
    requires apart { problems.now ≡ each_alone input.now.problem }
    requires solvable { All IsSolvable problems.now }
    ensures { IfOk result (λ answers. AreAnswersOf evidence input.now.problem answers.items) }
{
    let packages = input.closure.names().len() as u64;
    progress.tell(Stage::Encoding { packages });
    let answers = best_of_each(rt, alloc, &OpenGate, problems, budget_of(&input.problem))?;
    progress.tell(Stage::Writing);
    Ok(answers)
}

/// Finds the best graph of each root by itself, all roots beside each other, and when all are found
/// writes the answers: the files of one root behind those of the other, and then the lines of all.
pub(crate) fn write_each<R: Threads + Sync, D: Desk, O: Sink, P: Progress>(
    rt: &R,
    alloc: Global,
    input: &Input,
    dir: &str,
    desk: &mut D,
    out: &mut O,
    kept: &mut Log,
    progress: &mut P,
) -> Result<Outcome, WriteStop>
    requires ready { IsReady (tasks.Each input.now) }
    requires empty { kept.old ≡ [] }
    ensures left { (cert : Items ℕ)
        → Writes evidence dir.now cert (tasks.Each input.now) (D.files desk.old)
        (D.files desk.new) (O.said out.old) (O.said out.new) result }
    ensures held { (cert : Items ℕ) → (D.files desk.new ≡ D.files desk.old)
        ⊎ KeepsWhole evidence dir.now cert (tasks.Each input.now) (D.files desk.old)
        (D.files desk.new) }
    ensures faults { D.faults desk.new ≡ D.faults desk.old }
    ensures put { Counts (D.put_faults desk.old) (D.put_faults desk.new) (EndsInPutFault result) }
    ensures said { Counts (O.faults out.old) (O.faults out.new) (EndsInOutputFault result) }
    ensures steady { OnOk result ((D.put_faults desk.new ≡ D.put_faults desk.old)
        × (O.faults out.new ≡ O.faults out.old)) }
    ensures kept { (cert : Items ℕ)
        → KeepsAny dir.now cert (tasks.Each input.now) (D.files desk.old)
        (D.files desk.new) (O.said out.old) (O.said out.new) kept.new result }
{
    let problems = problems_of(alloc, input)?;
    let answers = find_each(rt, alloc, input, problems.as_slice(), progress)?;
    let written = write_found_each(
        alloc,
        &input.problem,
        problems.as_slice(),
        answers.as_slice(),
        dir,
        desk,
        out,
    );
    drop(problems);
    *kept = log_of_all(alloc, answers);
    written
}
