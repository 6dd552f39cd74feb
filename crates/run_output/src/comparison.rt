//! What is said of a lock file beside the best graph.

ghost use Rattle.std.specs.Prelude.{◌≡◌, IfOk};
ghost use Rattle.graph_rules.specs.Costs.{smaller};
ghost use Rattle.run_task.specs.Answer.TheVariants as answers;
ghost use Rattle.run_task.specs.Tasks.{IsReadyInput};
ghost use Rattle.run_task.specs.Verdicts.{HasCosts};
ghost use Rattle.run_task.specs.declared.task.Task.TheVariants as tasks;
ghost use Rattle.run_output.specs.Evidence.{IsFor, evidence};
ghost use Rattle.run_output.specs.Texts.{fresh_text, stale_text};
ghost use Rattle.run_output.specs.Told.{IsCompared, Tells};

use crate::answer::Outcome;
use crate::find::find;
use crate::report::write_vector;
use crate::said::Said;
use crate::told::{budget_of, undecided_text};
use graph_core::Graph;
use problem::Problem;
use proof_log::Log;
use run_task::{Answer, Input, Progress, vector};
use std::alloc::{AllocError, Global};

#[tactic(auto, unfolding(crate::specs::Texts::fresh_text))]
fn fresh_text(alloc: Global, numbers: &[u64]) -> Result<Vec<u8>, AllocError>
    ensures { IfOk result (λ text. text.items ≡ fresh_text numbers.now) }
{
    let mut text = Vec::from_slice(alloc, b"fresh\n")?;
    write_vector(alloc, numbers, &mut text)?;
    Ok(text)
}

#[tactic(auto, unfolding(crate::specs::Texts::stale_text))]
fn stale_text(alloc: Global, numbers: &[u64]) -> Result<Vec<u8>, AllocError>
    ensures { IfOk result (λ text. text.items ≡ stale_text numbers.now) }
{
    let mut text = Vec::from_slice(alloc, b"stale\n")?;
    write_vector(alloc, numbers, &mut text)?;
    Ok(text)
}

/// Whether the first number that differs is smaller in the first vector.
fn is_smaller(a: &[u64], b: &[u64]) -> bool
    ensures { result ≡ smaller a.now b.now }
{
    a.cmp(b).is_lt()
}

/// Of costs beside those of an optimal graph.
fn beside_best(
    alloc: Global,
    problem: &Problem,
    numbers: &[u64],
    graph: &Graph,
    _log: &Log,
) -> Result<Said, AllocError>
    requires best { IsFor problem.now (answers.Best graph.now _log.now) }
    requires costs { HasCosts problem.now numbers.now }
    ensures { IfOk result (λ said. IsCompared evidence problem.now numbers.now said.outcome
        said.text.items) }
{
    let best = vector(alloc, problem, graph)?;
    if is_smaller(&best, numbers) {
        Ok(Said {
            text: stale_text(alloc, &best)?,
            outcome: Outcome::Stale,
        })
    } else {
        Ok(Said {
            text: fresh_text(alloc, numbers)?,
            outcome: Outcome::Solved,
        })
    }
}

/// Of costs that some valid graph has, beside an answer of the problem.
#[tactic(auto, using(crate::proofs::Comparisons::left_open))]
fn beside(
    alloc: Global,
    problem: &Problem,
    numbers: &[u64],
    answer: &Answer,
) -> Result<Said, AllocError>
    requires found { IsFor problem.now answer.now }
    requires costs { HasCosts problem.now numbers.now }
    ensures { IfOk result (λ said. IsCompared evidence problem.now numbers.now said.outcome
        said.text.items) }
{
    match answer {
        Answer::Best { graph, log } => beside_best(alloc, problem, numbers, graph, log),
        Answer::Nothing { log: _ } => unreachable!(),
        Answer::Undecided { log: _ } => Ok(Said {
            text: undecided_text(alloc, budget_of(problem))?,
            outcome: Outcome::Undecided,
        }),
    }
}

/// Of a lock file whose graph is valid and has these costs: whether a valid graph costs less.
pub(crate) fn of_comparison<P: Progress>(
    alloc: Global,
    input: &Input,
    numbers: &[u64],
    progress: &mut P,
) -> Result<Said, AllocError>
    requires ready { IsReadyInput input.now }
    requires costs { HasCosts input.now.problem numbers.now }
    ensures { IfOk result (λ said. Tells evidence (tasks.Compare input.now numbers.now) said.outcome
        said.text.items) }
{
    let answer = find(alloc, input, progress)?;
    let said = beside(alloc, &input.problem, numbers, &answer);
    drop(answer);
    said
}
