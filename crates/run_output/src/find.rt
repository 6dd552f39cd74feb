//! The answer of a problem.

ghost use Rattle.std.specs.Prelude.{◌≡◌, IfOk};
ghost use Rattle.run_task.specs.Answers as answers;
ghost use Rattle.run_task.specs.Tasks.{IsReadyInput};
ghost use Rattle.run_output.specs.Evidence.{IsFor};
ghost use Rattle.run_output.specs.Texts.{outcome_of};

use crate::answer::Outcome;
use crate::told::budget_of;
use proof_log::Log;
use run_task::{Answer, Input, Progress, Stage, best_graph};
use std::alloc::{AllocError, Global};

/// The answer of a problem within the budget of its settings.
pub fn find<P: Progress>(
    alloc: Global,
    input: &Input,
    progress: &mut P,
) -> Result<Answer, AllocError>
    requires { IsReadyInput input.now }
    ensures { IfOk result (IsFor input.now.problem) }
{
    let budget = budget_of(&input.problem);
    let answer = best_graph(alloc, &input.problem, &input.closure, budget, progress);
    progress.tell(Stage::Writing);
    answer
}

/// What an answer is as an outcome.
pub fn outcome_of(answer: &Answer) -> Outcome
    ensures { result ≡ outcome_of answer.now }
{
    match answer {
        Answer::Best { .. } => Outcome::Solved,
        Answer::Nothing { .. } => Outcome::Unsolved,
        Answer::Undecided { .. } => Outcome::Undecided,
    }
}

/// The log of an answer.
pub fn log_of(answer: Answer) -> Log
    ensures { result ≡ answers.log_of answer }
{
    match answer {
        Answer::Best { graph, log } => {
            drop(graph);
            log
        }
        Answer::Nothing { log } => log,
        Answer::Undecided { log } => log,
    }
}
