//! What is said of an answer.

ghost use Rattle.std.specs.Prelude.{◌≡◌, IfOk, OnOk};
ghost use Rattle.outside_desk.specs.Causes.{Counts};
ghost use Rattle.run_task.specs.Stops.{EndsInPutFault, EndsInOutputFault};
ghost use Rattle.run_output.specs.Answers.{SaysText};
ghost use Rattle.run_output.specs.Texts.{graph_text, text_of_answer, undecided_line, unsatisfiable_line, verdict_text};

use crate::report::{report_text, write_vector};
use graph_core::Graph;
use outside_desk::{Sink, SinkFault};
use problem::Problem;
use run_task::{Answer, WriteStop, vector};
use std::alloc::{AllocError, Global};

/// Says a text on the sink of the answer. A fault of the sink is told as one, and as nothing else
/// (`told`).
pub fn say<O: Sink>(alloc: Global, out: &mut O, text: &[u8]) -> Result<(), WriteStop>
    ensures left { SaysText text.now (O.said out.old) (O.said out.new) result }
    ensures cause { Counts (O.faults out.old) (O.faults out.new) (EndsInOutputFault result) }
    ensures steady { OnOk result (O.faults out.new ≡ O.faults out.old) }
    ensures told { ¬ EndsInOutputFault result → O.faults out.new ≡ O.faults out.old }
    ensures no_put { EndsInPutFault result → ⊥ }
{
    match out.say(alloc, text) {
        Ok(()) => Ok(()),
        Err(SinkFault::Failed) => Err(WriteStop::Output),
        Err(SinkFault::OutOfMemory) => Err(WriteStop::NoMemory),
    }
}

/// The nodes of a graph and its cost vector.
fn graph_text(alloc: Global, problem: &Problem, graph: &Graph) -> Result<Vec<u8>, AllocError>
    ensures { IfOk result (λ text. text.items ≡ graph_text problem.now graph.now) }
{
    let numbers = vector(alloc, problem, graph)?;
    report_text(alloc, graph.nodes(), &numbers)
}

#[tactic(auto, unfolding(crate::specs::Texts::unsatisfiable_line))]
pub(crate) fn unsatisfiable_text(alloc: Global) -> Result<Vec<u8>, AllocError>
    ensures { IfOk result (λ text. text.items ≡ unsatisfiable_line) }
{
    Vec::from_slice(alloc, b"unsatisfiable\n")
}

#[tactic(auto, unfolding(crate::specs::Texts::undecided_line))]
pub(crate) fn undecided_text(alloc: Global, budget: u64) -> Result<Vec<u8>, AllocError>
    ensures { IfOk result (λ text. text.items ≡ undecided_line budget) }
{
    let line = format!(in alloc; "undecided {budget}\n")?;
    Vec::from_slice(alloc, line.as_bytes())
}

/// The budget of learnt clauses.
pub fn budget_of(problem: &Problem) -> u64
    ensures { result ≡ problem.now.settings.conflict_budget }
{
    problem.settings().conflict_budget
}

/// What is said of an answer.
pub fn answer_text(alloc: Global, problem: &Problem, answer: &Answer) -> Result<Vec<u8>, AllocError>
    ensures { IfOk result (λ text. text.items ≡ text_of_answer problem.now answer.now) }
{
    match answer {
        Answer::Best { graph, .. } => graph_text(alloc, problem, graph),
        Answer::Nothing { .. } => unsatisfiable_text(alloc),
        Answer::Undecided { .. } => undecided_text(alloc, budget_of(problem)),
    }
}

/// What is said of a lock file whose graph is valid.
#[tactic(auto, unfolding(crate::specs::Texts::verdict_text))]
pub fn verdict_text(alloc: Global, numbers: &[u64]) -> Result<Vec<u8>, AllocError>
    ensures { IfOk result (λ text. text.items ≡ verdict_text numbers.now) }
{
    let mut text = Vec::from_slice(alloc, b"valid\n")?;
    write_vector(alloc, numbers, &mut text)?;
    Ok(text)
}
