//! What is said where each root is solved by itself.

ghost use Rattle.std.specs.Prelude.{◌≡◌, ◌++◌, ◌<◌, ◌^◌, IfOk, OnOk, length};
ghost use Rattle.problem.specs.Problems.{each_alone};
ghost use Rattle.run_answers.specs.Texts.{root_line};
ghost use Rattle.run_output.specs.Each.{brief_line, each_text};

use crate::report::write_vector;
use crate::told::{budget_of, undecided_text, unsatisfiable_text};
use problem::Problem;
use run_answers::write_root;
use run_task::{Answer, vector};
use std::alloc::{AllocError, Global};

// Each of these that takes `out` appends a text to it, or some of it after an error.

/// Of one answer: the cost vector, or why there is no graph.
fn write_brief(
    alloc: Global,
    problem: &Problem,
    answer: &Answer,
    out: &mut Vec<u8>,
) -> Result<(), AllocError>
    ensures { OnOk result (out.new.items ≡ out.old.items ++ brief_line problem.now answer.now) }
{
    match answer {
        Answer::Best { graph, .. } => {
            let numbers = vector(alloc, problem, graph)?;
            write_vector(alloc, &numbers, out)
        }
        Answer::Nothing { .. } => {
            let text = unsatisfiable_text(alloc)?;
            out.extend_from_slice(text.as_slice())
        }
        Answer::Undecided { .. } => {
            let text = undecided_text(alloc, budget_of(problem))?;
            out.extend_from_slice(text.as_slice())
        }
    }
}

/// Of a root: its number, its canonical text and what was found.
fn write_lines(
    alloc: Global,
    whole: &Problem,
    root: u64,
    problem: &Problem,
    answer: &Answer,
    out: &mut Vec<u8>,
) -> Result<(), AllocError>
    ensures { OnOk result (out.new.items ≡ out.old.items
        ++ (root_line whole.now root ++ brief_line problem.now answer.now)) }
{
    write_root(alloc, whole, root, out)?;
    write_brief(alloc, problem, answer, out)
}

/// What is said of the answers of all roots.
pub(crate) fn each_text(
    alloc: Global,
    whole: &Problem,
    problems: &[Problem],
    answers: &[Answer],
) -> Result<Vec<u8>, AllocError>
    requires apart { problems.now ≡ each_alone whole.now }
    requires count { length answers.now ≡ length problems.now }
    ensures { IfOk result (λ text. text.items ≡ each_text whole.now answers.now) }
{
    let mut text = Vec::new(alloc);
    for place in 0..problems.len() {
        write_lines(
            alloc,
            whole,
            place as u64,
            &problems[place],
            &answers[place],
            &mut text,
        )?;
    }
    Ok(text)
}
