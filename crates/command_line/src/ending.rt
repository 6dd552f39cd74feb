//! The words of a command line over any devices, up to the number that the process ends with.

ghost use Rattle.std.specs.Prelude.{◌≡◌, None, IfSome};
ghost use Rattle.std.specs.Process.{exit_status};
ghost use Rattle.outside_desk.specs.Files.{told};
ghost use Rattle.run_output.specs.Exits.{number_of};
ghost use Rattle.run_output.specs.Words.{words_of};
ghost use Rattle.concretizer.specs.Headline.{Reports};
ghost use Rattle.command_line.specs.Ends.{EndsOwn, EndsRun, IsToldApart, TellsOwn};
ghost use Rattle.command_line.specs.OwnWords as own;

use crate::own_words::own_text;
use concretizer::{Log, Progress, Status, run};
use outside_desk::{Desk, Sink, SinkFault};
use std::alloc::Global;
use std::process::ExitCode;
use std::thread::Threads;

/// The exit status of an answer.
pub fn ended(status: Status) -> ExitCode
    ensures { exit_status result ≡ number_of status }
{
    ExitCode::from(status.number())
}

/// An exit status names its answer. The body is empty: what is proved is the contract.
#[tactic(auto, using(crate::proofs::Numbers::told_apart))]
pub fn number_laws()
    ensures { IsToldApart }
{}

/// Says a line on `err`, and answers so.
pub fn report<E: Sink>(alloc: Global, err: &mut E, line: &str, status: Status) -> Status
    ensures { Reports status line.now (E.said err.old, E.said err.new)
        (E.faults err.old, E.faults err.new) result }
{
    match err.say(alloc, line.as_bytes()) {
        Ok(()) => status,
        Err(SinkFault::Failed) => Status::WriteFault,
        Err(SinkFault::OutOfMemory) => Status::NoMemory,
    }
}

/// Says a text that was asked for alone, and answers as a run does where that fails.
#[tactic(auto, unfolding(run_answers::specs::Stops::output_fault_line, run_answers::specs::Stops::no_memory_line))]
fn tell<O: Sink, E: Sink>(alloc: Global, text: &str, out: &mut O, err: &mut E) -> Status
    ensures { TellsOwn text.now (O.faults out.old, O.faults out.new)
        (E.faults err.old, E.faults err.new) (O.said out.old, O.said out.new)
        (E.said err.old, E.said err.new) result }
{
    match out.say(alloc, text.as_bytes()) {
        Ok(()) => Status::Done,
        Err(SinkFault::Failed) => report(alloc, err, "write fault: output\n", Status::WriteFault),
        Err(SinkFault::OutOfMemory) => report(alloc, err, "no memory\n", Status::NoMemory),
    }
}

/// Says such a text, and ends with the number of the answer.
fn end_own<O: Sink, E: Sink>(alloc: Global, text: &str, out: &mut O, err: &mut E) -> ExitCode
    ensures { EndsOwn text.now (O.faults out.old, O.faults out.new)
        (E.faults err.old, E.faults err.new) (O.said out.old, O.said out.new)
        (E.said err.old, E.said err.new) (exit_status result) }
{
    let status = tell(alloc, text, out, err);
    ended(status)
}

/// Runs the words, and ends with the number of the answer.
fn end_run<R: Threads + Sync, D: Desk, O: Sink, E: Sink, P: Progress>(
    rt: &R,
    alloc: Global,
    words: &[String],
    desk: &mut D,
    out: &mut O,
    err: &mut E,
    kept: &mut Log,
    progress: &mut P,
) -> ExitCode
    ensures { EndsRun (words_of words.now) (told (D.files desk.old) (D.files desk.new), D.files desk.new)
        (D.faults desk.old, D.faults desk.new) (D.put_faults desk.old, D.put_faults desk.new)
        (O.faults out.old, O.faults out.new) (E.faults err.old, E.faults err.new)
        (O.said out.old, O.said out.new) (E.said err.old, E.said err.new) kept.new
        (exit_status result) }
{
    let status = run(rt, alloc, words, desk, out, err, kept, progress);
    ended(status)
}

/// Answers the words over any devices, and ends with the number of the answer. Words that ask for a
/// text of the program's own (`own_text`) get that; all others are `run`'s.
pub fn answer_words<R: Threads + Sync, D: Desk, O: Sink, E: Sink, P: Progress>(
    rt: &R,
    alloc: Global,
    words: &[String],
    desk: &mut D,
    out: &mut O,
    err: &mut E,
    kept: &mut Log,
    progress: &mut P,
) -> ExitCode
    ensures own { IfSome (own.own_text (words_of words.now)) (λ text. (desk.new ≡ desk.old)
        × (kept.new ≡ kept.old)
        × EndsOwn text (O.faults out.old, O.faults out.new) (E.faults err.old, E.faults err.new)
        (O.said out.old, O.said out.new) (E.said err.old, E.said err.new) (exit_status result)) }
    ensures ran { own.own_text (words_of words.now) ≡ None → EndsRun (words_of words.now)
        (told (D.files desk.old) (D.files desk.new), D.files desk.new)
        (D.faults desk.old, D.faults desk.new)
        (D.put_faults desk.old, D.put_faults desk.new) (O.faults out.old, O.faults out.new)
        (E.faults err.old, E.faults err.new) (O.said out.old, O.said out.new)
        (E.said err.old, E.said err.new) kept.new (exit_status result) }
{
    match own_text(words) {
        Some(text) => end_own(alloc, text, out, err),
        None => end_run(rt, alloc, words, desk, out, err, kept, progress),
    }
}
