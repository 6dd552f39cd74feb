//! The writing of the answers of all roots.

ghost use Rattle.std.specs.Prelude.{◌≡◌, ◌⊎◌, All, OnOk, length};
ghost use Rattle.std.specs.List.{AllZip};
ghost use Rattle.std.specs.Str.{IsUtf8};
ghost use Rattle.outside_desk.specs.Causes.{Counts};
ghost use Rattle.problem.specs.Problems.{each_alone};
ghost use Rattle.spec_grammar.specs.Canonical.{spec_text};
ghost use Rattle.run_task.specs.Places.{cert_at, lock_at};
ghost use Rattle.run_task.specs.Stops.{EndsInPutFault, EndsInOutputFault};
ghost use Rattle.run_output.specs.Answers.{PutsAnswer};
ghost use Rattle.run_output.specs.Each.{AreAnswersOf, HoldsFrom};
ghost use Rattle.run_output.specs.Each as each;
ghost use Rattle.run_output.specs.EachPuts.{LeavesEach, PutsEach};
ghost use Rattle.run_output.specs.Evidence.{IsFor, evidence};
ghost use Rattle.run_output.specs.Put.{HoldsWhole};

use crate::answer::Outcome;
use crate::each_text::each_text;
use crate::found::put_answer;
use crate::told::say;
use outside_desk::{Desk, Sink};
use problem::Problem;
use proof_log::Log;
use run_task::{Answer, WriteStop, cert_at, lock_at};
use std::alloc::Global;

/// Puts the files of the root with this number.
fn put_at<D: Desk>(
    alloc: Global,
    problem: &Problem,
    answer: &Answer,
    dir: &str,
    root: u64,
    desk: &mut D,
) -> Result<(), WriteStop>
    requires found { IsFor problem.now answer.now }
    requires texts { All (λ spec. IsUtf8 (spec_text spec)) problem.now.roots }
    ensures left { PutsAnswer (lock_at dir.now root) (cert_at dir.now root) problem.now answer.now
        (D.files desk.old) (D.files desk.new) result }
    ensures held { (D.files desk.new ≡ D.files desk.old)
        ⊎ HoldsWhole (lock_at dir.now root) (cert_at dir.now root) problem.now answer.now
        (D.files desk.old) (D.files desk.new) }
    ensures no_output { EndsInOutputFault result → ⊥ }
    ensures faults { D.faults desk.new ≡ D.faults desk.old }
    ensures cause { Counts (D.put_faults desk.old) (D.put_faults desk.new) (EndsInPutFault result) }
    ensures steady { OnOk result (D.put_faults desk.new ≡ D.put_faults desk.old) }
{
    let lock = lock_at(alloc, dir, root)?;
    let cert = cert_at(alloc, dir, root)?;
    put_answer(alloc, problem, answer, lock.as_str(), cert.as_str(), desk)
}

/// Puts the files of each answer, one root behind the other.
fn put_each<D: Desk>(
    alloc: Global,
    problems: &[Problem],
    answers: &[Answer],
    dir: &str,
    desk: &mut D,
) -> Result<(), WriteStop>
    requires each { AllZip evidence.answers problems.now answers.now }
    requires count { length answers.now ≡ length problems.now }
    requires texts { All (λ problem. All (λ spec. IsUtf8 (spec_text spec)) problem.roots)
        problems.now }
    ensures left { PutsEach dir.now problems.now answers.now (D.files desk.old)
        (D.files desk.new) result }
    ensures held { (D.files desk.new ≡ D.files desk.old)
        ⊎ HoldsFrom dir.now 0 problems.now answers.now (D.files desk.old) (D.files desk.new) }
    ensures no_output { EndsInOutputFault result → ⊥ }
    ensures faults { D.faults desk.new ≡ D.faults desk.old }
    ensures cause { Counts (D.put_faults desk.old) (D.put_faults desk.new) (EndsInPutFault result) }
    ensures steady { OnOk result (D.put_faults desk.new ≡ D.put_faults desk.old) }
{
    for place in 0..problems.len() {
        put_at(
            alloc,
            &problems[place],
            &answers[place],
            dir,
            place as u64,
            desk,
        )?;
    }
    Ok(())
}

/// What all answers come to: the first without a graph decides.
fn outcome_of_all(answers: &[Answer]) -> Outcome
    ensures { result ≡ each.outcome_of_all answers.now }
{
    for answer in answers {
        match answer {
            Answer::Best { .. } => {}
            Answer::Nothing { .. } => return Outcome::Unsolved,
            Answer::Undecided { .. } => return Outcome::Undecided,
        }
    }
    Outcome::Solved
}

/// The log of the first answer without a graph; no line where each has one.
pub(crate) fn log_of_all(alloc: Global, answers: Vec<Answer>) -> Log
    ensures { result ≡ each.log_of_all answers.items }
{
    for answer in answers {
        match answer {
            Answer::Best { graph, log } => {
                drop(graph);
                drop(log);
            }
            Answer::Nothing { log } => return log,
            Answer::Undecided { log } => return log,
        }
    }
    Log::new(alloc)
}

/// Writes the answers of all roots: the files of one root behind those of the other, and then the
/// lines of all.
pub(crate) fn write_found_each<D: Desk, O: Sink>(
    alloc: Global,
    whole: &Problem,
    problems: &[Problem],
    answers: &[Answer],
    dir: &str,
    desk: &mut D,
    out: &mut O,
) -> Result<Outcome, WriteStop>
    requires apart { problems.now ≡ each_alone whole.now }
    requires each { AreAnswersOf evidence whole.now answers.now }
    requires texts { All (λ spec. IsUtf8 (spec_text spec)) whole.now.roots }
    ensures left { LeavesEach dir.now whole.now answers.now (D.files desk.old) (D.files desk.new)
        (O.said out.old) (O.said out.new) result }
    ensures held { (D.files desk.new ≡ D.files desk.old)
        ⊎ HoldsFrom dir.now 0 (each_alone whole.now) answers.now (D.files desk.old)
        (D.files desk.new) }
    ensures faults { D.faults desk.new ≡ D.faults desk.old }
    ensures put { Counts (D.put_faults desk.old) (D.put_faults desk.new) (EndsInPutFault result) }
    ensures said { Counts (O.faults out.old) (O.faults out.new) (EndsInOutputFault result) }
    ensures steady { OnOk result ((D.put_faults desk.new ≡ D.put_faults desk.old)
        × (O.faults out.new ≡ O.faults out.old)) }
{
    let text = each_text(alloc, whole, problems, answers)?;
    put_each(alloc, problems, answers, dir, desk)?;
    say(alloc, out, text.as_slice())?;
    Ok(outcome_of_all(answers))
}
