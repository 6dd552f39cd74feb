//! The writing of an answer of a problem.

ghost use Rattle.std.specs.Prelude.{◌≡◌, ◌⊎◌, All, OnOk};
ghost use Rattle.std.specs.Str.{IsUtf8};
ghost use Rattle.outside_desk.specs.Causes.{Counts};
ghost use Rattle.spec_grammar.specs.Canonical.{spec_text};
ghost use Rattle.run_task.specs.Answer.TheVariants as answers;
ghost use Rattle.run_task.specs.Stops.{EndsInPutFault, EndsInOutputFault};
ghost use Rattle.run_output.specs.Answers.{Leaves, PutsAnswer};
ghost use Rattle.run_output.specs.Put.{HoldsWhole};
ghost use Rattle.run_output.specs.Evidence.{IsFor};
ghost use Rattle.run_output.specs.Locks.{HasReadableLock, IsReadAsWritten, PutsReadable};
ghost use Rattle.run_output.specs.Texts.{outcome_of};

use crate::answer::Outcome;
use crate::find::outcome_of;
use crate::put::{put_cert, put_file};
use crate::told::{answer_text, say};
use crate::write_valid;
use graph_core::Graph;
use outside_desk::{Desk, Sink};
use problem::Problem;
use proof_log::Log;
use run_task::{Answer, WriteStop};
use std::alloc::Global;

/// Puts the certificate of a graph, and then its lock file.
fn put_best<D: Desk>(
    alloc: Global,
    problem: &Problem,
    graph: &Graph,
    log: &Log,
    lock: &str,
    cert: &str,
    desk: &mut D,
) -> Result<(), WriteStop>
    requires best { IsFor problem.now (answers.Best graph.now log.now) }
    requires texts { All (λ spec. IsUtf8 (spec_text spec)) problem.now.roots }
    ensures left { PutsAnswer lock.now cert.now problem.now (answers.Best graph.now log.now)
        (D.files desk.old) (D.files desk.new) result }
    ensures held { (D.files desk.new ≡ D.files desk.old)
        ⊎ HoldsWhole lock.now cert.now problem.now (answers.Best graph.now log.now)
        (D.files desk.old) (D.files desk.new) }
    ensures read { OnOk result (IsReadAsWritten problem.now graph.now) }
    ensures no_output { EndsInOutputFault result → ⊥ }
    ensures faults { D.faults desk.new ≡ D.faults desk.old }
    ensures cause { Counts (D.put_faults desk.old) (D.put_faults desk.new) (EndsInPutFault result) }
    ensures steady { OnOk result (D.put_faults desk.new ≡ D.put_faults desk.old) }
{
    let text = write_valid(alloc, problem, graph)?;
    put_cert(alloc, desk, cert, log)?;
    put_file(alloc, desk, lock, text.as_slice())
}

/// Puts the files of an answer.
pub(crate) fn put_answer<D: Desk>(
    alloc: Global,
    problem: &Problem,
    answer: &Answer,
    lock: &str,
    cert: &str,
    desk: &mut D,
) -> Result<(), WriteStop>
    requires found { IsFor problem.now answer.now }
    requires texts { All (λ spec. IsUtf8 (spec_text spec)) problem.now.roots }
    ensures left { PutsAnswer lock.now cert.now problem.now answer.now (D.files desk.old)
        (D.files desk.new) result }
    ensures held { (D.files desk.new ≡ D.files desk.old)
        ⊎ HoldsWhole lock.now cert.now problem.now answer.now (D.files desk.old)
        (D.files desk.new) }
    ensures read { PutsReadable problem.now answer.now result }
    ensures no_output { EndsInOutputFault result → ⊥ }
    ensures faults { D.faults desk.new ≡ D.faults desk.old }
    ensures cause { Counts (D.put_faults desk.old) (D.put_faults desk.new) (EndsInPutFault result) }
    ensures steady { OnOk result (D.put_faults desk.new ≡ D.put_faults desk.old) }
{
    match answer {
        Answer::Best { graph, log } => put_best(alloc, problem, graph, log, lock, cert, desk),
        Answer::Nothing { log } => put_cert(alloc, desk, cert, log),
        Answer::Undecided { log } => put_cert(alloc, desk, cert, log),
    }
}

/// Writes an answer: its files, and then its lines.
pub fn write_found<D: Desk, O: Sink>(
    alloc: Global,
    problem: &Problem,
    answer: &Answer,
    lock: &str,
    cert: &str,
    desk: &mut D,
    out: &mut O,
) -> Result<Outcome, WriteStop>
    requires found { IsFor problem.now answer.now }
    requires texts { All (λ spec. IsUtf8 (spec_text spec)) problem.now.roots }
    ensures left { Leaves lock.now cert.now problem.now answer.now (D.files desk.old)
        (D.files desk.new) (O.said out.old) (O.said out.new) result }
    ensures held { (D.files desk.new ≡ D.files desk.old)
        ⊎ HoldsWhole lock.now cert.now problem.now answer.now (D.files desk.old)
        (D.files desk.new) }
    ensures read { OnOk result (HasReadableLock problem.now answer.now) }
    ensures faults { D.faults desk.new ≡ D.faults desk.old }
    ensures put { Counts (D.put_faults desk.old) (D.put_faults desk.new) (EndsInPutFault result) }
    ensures said { Counts (O.faults out.old) (O.faults out.new) (EndsInOutputFault result) }
    ensures steady { OnOk result ((D.put_faults desk.new ≡ D.put_faults desk.old)
        × (O.faults out.new ≡ O.faults out.old)) }
{
    let text = answer_text(alloc, problem, answer)?;
    put_answer(alloc, problem, answer, lock, cert, desk)?;
    say(alloc, out, text.as_slice())?;
    Ok(outcome_of(answer))
}
