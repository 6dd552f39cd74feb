//! What is said of a task that asks for a least list of demands.

ghost use Rattle.std.specs.Prelude.{◌≡◌, [], IfOk, OnErr};
ghost use Rattle.run_task.specs.Tasks.{IsReadyInput};
ghost use Rattle.run_task.specs.declared.task.Task.TheVariants as tasks;
ghost use Rattle.run_output.specs.Evidence.{evidence};
ghost use Rattle.run_output.specs.Kept.{IsLeastLogTo};
ghost use Rattle.run_output.specs.LeastTexts as texts;
ghost use Rattle.run_output.specs.Told.{Tells};

use crate::answer::Outcome;
use crate::least_text::least_text;
use crate::said::{Said, satisfiable_text};
use crate::told::{budget_of, undecided_text};
use problem::Problem;
use proof_log::Log;
use run_answers::write_reasons;
use run_task::{Input, LeastExplanation, Progress, explain_least};
use std::alloc::{AllocError, Global};

/// The demands that were not decided, and the budget.
fn open_text(alloc: Global, problem: &Problem, demands: &[u64]) -> Result<Vec<u8>, AllocError>
    ensures { IfOk result (λ text. text.items ≡ texts.open_text problem.now demands.now) }
{
    let mut text = write_reasons(alloc, problem, demands)?;
    let line = undecided_text(alloc, budget_of(problem))?;
    text.extend_from_slice(line.as_slice())?;
    Ok(text)
}

/// What is said of a least list, of none, and of demands that a budget left open.
fn least_explanation_text(
    alloc: Global,
    problem: &Problem,
    explanation: &LeastExplanation,
) -> Result<Vec<u8>, AllocError>
    ensures { IfOk result (λ text. text.items
        ≡ texts.least_explanation_text problem.now explanation.now) }
{
    match explanation {
        LeastExplanation::Satisfiable => satisfiable_text(alloc),
        LeastExplanation::Least { demands, graphs } => {
            least_text(alloc, problem, demands.as_slice(), graphs.as_slice())
        }
        LeastExplanation::Undecided { demands, .. } => {
            open_text(alloc, problem, demands.as_slice())
        }
    }
}

fn least_outcome(explanation: &LeastExplanation) -> Outcome
    ensures { result ≡ texts.least_outcome explanation.now }
{
    match explanation {
        LeastExplanation::Satisfiable => Outcome::Solved,
        LeastExplanation::Least { .. } => Outcome::Unsolved,
        LeastExplanation::Undecided { .. } => Outcome::Undecided,
    }
}

/// The log that spent the budget; no line where none was spent.
fn least_log(alloc: Global, explanation: LeastExplanation) -> Log
    ensures { result ≡ texts.least_log explanation }
{
    match explanation {
        LeastExplanation::Satisfiable => Log::new(alloc),
        LeastExplanation::Least { .. } => Log::new(alloc),
        LeastExplanation::Undecided { log, .. } => log,
    }
}

/// Of whether there is a graph, and else of a least list of demands for which none is valid. The
/// log is kept of a search that spent the budget.
pub fn of_least_reasons<P: Progress>(
    alloc: Global,
    input: &Input,
    kept: &mut Log,
    progress: &mut P,
) -> Result<Said, AllocError>
    requires ready { IsReadyInput input.now }
    requires empty { kept.old ≡ [] }
    ensures said { IfOk result (λ said. Tells evidence (tasks.Reasons input.now) said.outcome
        said.text.items) }
    ensures kept { IfOk result (λ said. IsLeastLogTo input.now.problem said.outcome
        said.text.items kept.new) }
    ensures short { OnErr result (kept.new ≡ []) }
{
    let problem = &input.problem;
    let budget = budget_of(problem);
    let explanation = explain_least(alloc, problem, &input.closure, budget, progress)?;
    let text = least_explanation_text(alloc, problem, &explanation)?;
    let outcome = least_outcome(&explanation);
    *kept = least_log(alloc, explanation);
    Ok(Said { text, outcome })
}
