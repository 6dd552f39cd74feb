//! What is said of a task that puts no file.

ghost use Rattle.std.specs.Prelude.{◌≡◌, ◌++◌, [], IfOk, OnErr, OnOk};
ghost use Rattle.run_task.specs.Tasks.{IsReadyInput};
ghost use Rattle.run_task.specs.declared.task.Task.TheVariants as tasks;
ghost use Rattle.proof_log.specs.Lines.{learnt_in};
ghost use Rattle.run_task.specs.Answer.TheVariants as best;
ghost use Rattle.run_output.specs.Evidence.{evidence};
ghost use Rattle.run_output.specs.Kept.{IsLogTo, IsReasonLogTo};
ghost use Rattle.run_output.specs.Texts as texts;
ghost use Rattle.run_output.specs.Told.{Tells};

use crate::answer::Outcome;
use crate::find::{find, log_of, outcome_of};
use crate::report::write_vector;
use crate::told::{budget_of, undecided_text, unsatisfiable_text, verdict_text};
use graph_core::Graph;
use problem::Problem;
use proof_log::{Line, Log};
use run_answers::write_reasons;
use run_task::{Answer, Explanation, Input, Progress, explain, vector};
use std::alloc::{AllocError, Global};

/// What is said of a task, and what the task came to.
#[derive(Drop)]
pub struct Said {
    pub text: Vec<u8>,
    pub outcome: Outcome,
}

/// Of a lock file whose graph is valid.
pub fn of_verdict(alloc: Global, numbers: &[u64]) -> Result<Said, AllocError>
    ensures { IfOk result (λ said. Tells evidence (tasks.Report numbers.now) said.outcome
        said.text.items) }
{
    Ok(Said {
        text: verdict_text(alloc, numbers)?,
        outcome: Outcome::Solved,
    })
}

#[tactic(auto, unfolding(crate::specs::Texts::accepted_line))]
fn accepted_text(alloc: Global) -> Result<Vec<u8>, AllocError>
    ensures { IfOk result (λ text. text.items ≡ texts.accepted_line) }
{
    Vec::from_slice(alloc, b"accepted\n")
}

/// Of a certificate that is right.
pub fn of_certificate(alloc: Global) -> Result<Said, AllocError>
    ensures { IfOk result (λ said. Tells evidence tasks.Accepted said.outcome said.text.items) }
{
    Ok(Said {
        text: accepted_text(alloc)?,
        outcome: Outcome::Solved,
    })
}

// ---- why there is no graph

#[tactic(auto, unfolding(crate::specs::Texts::satisfiable_line))]
pub(crate) fn satisfiable_text(alloc: Global) -> Result<Vec<u8>, AllocError>
    ensures { IfOk result (λ text. text.items ≡ texts.satisfiable_line) }
{
    Vec::from_slice(alloc, b"satisfiable\n")
}

fn explanation_text(
    alloc: Global,
    problem: &Problem,
    explanation: &Explanation,
) -> Result<Vec<u8>, AllocError>
    ensures { IfOk result (λ text. text.items
        ≡ texts.explanation_text problem.now explanation.now) }
{
    match explanation {
        Explanation::Satisfiable => satisfiable_text(alloc),
        Explanation::Unmet { demands, .. } => write_reasons(alloc, problem, demands.as_slice()),
        Explanation::Undecided { .. } => undecided_text(alloc, budget_of(problem)),
    }
}

fn explanation_outcome(explanation: &Explanation) -> Outcome
    ensures { result ≡ texts.explanation_outcome explanation.now }
{
    match explanation {
        Explanation::Satisfiable => Outcome::Solved,
        Explanation::Unmet { .. } => Outcome::Unsolved,
        Explanation::Undecided { .. } => Outcome::Undecided,
    }
}

/// The log on which it rests; no line where there is a graph.
fn explanation_log(alloc: Global, explanation: Explanation) -> Log
    ensures { result ≡ texts.explanation_log explanation }
{
    match explanation {
        Explanation::Satisfiable => Log::new(alloc),
        Explanation::Unmet { log, .. } => log,
        Explanation::Undecided { log } => log,
    }
}

/// Of whether there is a graph, and why there is none, of which the log is kept.
pub fn of_reasons<P: Progress>(
    alloc: Global,
    input: &Input,
    kept: &mut Log,
    progress: &mut P,
) -> Result<Said, AllocError>
    requires ready { IsReadyInput input.now }
    requires empty { kept.old ≡ [] }
    ensures said { IfOk result (λ said. Tells evidence (tasks.Explain input.now) said.outcome
        said.text.items) }
    ensures kept { IfOk result (λ said. IsReasonLogTo input.now.problem said.outcome
        said.text.items kept.new) }
    ensures short { OnErr result (kept.new ≡ []) }
{
    let problem = &input.problem;
    let budget = budget_of(problem);
    let explanation = explain(alloc, problem, &input.closure, budget, progress)?;
    let text = explanation_text(alloc, problem, &explanation)?;
    let outcome = explanation_outcome(&explanation);
    *kept = explanation_log(alloc, explanation);
    Ok(Said { text, outcome })
}

// ---- trials

fn is_learnt(line: &Line) -> bool
    ensures { result ≡ texts.is_learnt line.now }
{
    matches!(line, Line::Learnt { .. })
}

/// How many clauses were learnt.
#[tactic(auto, using(crate::proofs::Tellings::counted))]
fn learnt_in(lines: &[Line]) -> usize
    ensures { result ≡ learnt_in lines.now }
{
    lines.iter().filter(|line| is_learnt(line)).count()
}

#[tactic(auto, unfolding(crate::specs::Texts::nodes_line))]
fn write_nodes(alloc: Global, count: usize, out: &mut Vec<u8>) -> Result<(), AllocError>
    ensures { OnOk result (out.new.items ≡ out.old.items ++ texts.nodes_line count) }
{
    let line = format!(in alloc; "nodes {count}\n")?;
    out.extend_from_slice(line.as_bytes())
}

#[tactic(auto, unfolding(crate::specs::Texts::learnt_line))]
fn write_learnt(alloc: Global, count: usize, out: &mut Vec<u8>) -> Result<(), AllocError>
    ensures { OnOk result (out.new.items ≡ out.old.items ++ texts.learnt_line count) }
{
    let line = format!(in alloc; "learnt {count}\n")?;
    out.extend_from_slice(line.as_bytes())
}

#[tactic(auto, unfolding(crate::specs::Texts::counts_text))]
fn counts_text(
    alloc: Global,
    nodes: usize,
    numbers: &[u64],
    learnt: usize,
) -> Result<Vec<u8>, AllocError>
    ensures { IfOk result (λ text. text.items ≡ texts.counts_text nodes numbers.now learnt) }
{
    let mut text = Vec::new(alloc);
    write_nodes(alloc, nodes, &mut text)?;
    write_vector(alloc, numbers, &mut text)?;
    write_learnt(alloc, learnt, &mut text)?;
    Ok(text)
}

fn solved_text(
    alloc: Global,
    problem: &Problem,
    graph: &Graph,
    log: &Log,
) -> Result<Vec<u8>, AllocError>
    ensures { IfOk result (λ text. text.items
        ≡ texts.trial_text problem.now (best.Best graph.now log.now)) }
{
    let numbers = vector(alloc, problem, graph)?;
    counts_text(alloc, graph.nodes().len(), &numbers, learnt_in(log.lines()))
}

fn trial_text(alloc: Global, problem: &Problem, answer: &Answer) -> Result<Vec<u8>, AllocError>
    ensures { IfOk result (λ text. text.items ≡ texts.trial_text problem.now answer.now) }
{
    match answer {
        Answer::Best { graph, log } => solved_text(alloc, problem, graph, log),
        Answer::Nothing { .. } => unsatisfiable_text(alloc),
        Answer::Undecided { .. } => undecided_text(alloc, budget_of(problem)),
    }
}

/// Of the best graph of a made input, of which the log is kept.
pub fn of_trial<P: Progress>(
    alloc: Global,
    input: &Input,
    kept: &mut Log,
    progress: &mut P,
) -> Result<Said, AllocError>
    requires ready { IsReadyInput input.now }
    requires empty { kept.old ≡ [] }
    ensures said { IfOk result (λ said. Tells evidence (tasks.Try input.now) said.outcome
        said.text.items) }
    ensures kept { IfOk result (λ said. IsLogTo input.now.problem said.outcome
        said.text.items kept.new) }
    ensures short { OnErr result (kept.new ≡ []) }
{
    let answer = find(alloc, input, progress)?;
    let text = trial_text(alloc, &input.problem, &answer)?;
    let outcome = outcome_of(&answer);
    *kept = log_of(answer);
    Ok(Said { text, outcome })
}
