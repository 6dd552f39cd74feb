//! The top call.

ghost use Rattle.std.specs.Prelude.{◌≡◌, IfOk, IfSome};
ghost use Rattle.std.specs.String.{string_bytes};
ghost use Rattle.run_answers.specs.Exits.{IsAnsweredBy};
ghost use Rattle.outside_desk.specs.Causes.{Rose};
ghost use Rattle.outside_desk.specs.Files.{StillTells};
ghost use Rattle.run_input.specs.Words.{words_of};
ghost use Rattle.dimacs_text.specs.Answers.{Answers, IsFault, Posed, Poses, explained, status_of, usage_line};
ghost use Rattle.dimacs_text.specs.Attempts.{Reports, line_of};
ghost use Rattle.dimacs_text.specs.Faults.{IsOutOfMemory, IsReadFault, IsWriteFault};

use crate::attempt::attempt;
use outside_desk::{Desk, Sink, SinkFault};
use run_input::{Status, Stop, input_laws};
use std::alloc::{AllocError, Global};
use std::thread::Threads;

#[tactic(auto, unfolding(crate::specs::Answers::usage_line))]
fn usage_line(alloc: Global) -> Result<String, AllocError>
    ensures { IfOk result (λ line. string_bytes line ≡ usage_line) }
{
    String::from_str(
        alloc,
        "usage: encode_dimacs REPO SETTINGS DATABASE SPEC...\n",
    )
}

/// The line of a stop: of wrong words it is the program's own.
fn line_of(alloc: Global, stop: &Stop) -> Result<String, AllocError>
    ensures { IfOk result (λ line. string_bytes line ≡ line_of stop.now) }
{
    match stop {
        Stop::Usage => usage_line(alloc),
        other => other.line(alloc),
    }
}

/// Says why a run stops, and answers so.
fn report<E: Sink>(alloc: Global, err: &mut E, stop: &Stop) -> Status
    ensures reports { Reports stop.now (E.said err.old, E.said err.new)
        (E.faults err.old, E.faults err.new) result }
{
    let Ok(line) = line_of(alloc, stop) else {
        return Status::NoMemory;
    };
    match err.say(alloc, line.as_bytes()) {
        Ok(()) => stop.status(),
        Err(SinkFault::Failed) => Status::WriteFault,
        Err(SinkFault::OutOfMemory) => Status::NoMemory,
    }
}

/// Says the encoding of the problem that the words `REPO SETTINGS DATABASE SPEC..` name, as DIMACS
/// with a comment for each choice of the table, each clause of a demand, each number and each of
/// its bits.
///
/// `out` gets the text; `err` gets one line where a run stops before its end.
pub fn run<R: Threads + Sync, D: Desk, O: Sink, E: Sink>(
    rt: &R,
    alloc: Global,
    words: &[String],
    desk: &mut D,
    out: &mut O,
    err: &mut E,
) -> Status
    // The answers of a desk that tells its files to the end.
    ensures answers { IfSome (D.files desk.new) (λ files. Answers files (words_of words.now)
        (O.said out.old, O.said out.new) (E.said err.old, E.said err.new) result) }

    // What the words pose is answered, where no device fails.
    ensures settles { IfSome (D.files desk.new) (λ files. (posed : Posed)
        → Poses files (words_of words.now) posed
        → ¬ Rose (D.faults desk.old) (D.faults desk.new)
        → ¬ Rose (O.faults out.old) (O.faults out.new)
        → ¬ Rose (E.faults err.old) (E.faults err.new)
        → IsAnsweredBy (status_of posed) result) }

    // Faults come from outside, and are told. Reading stops before anything is said; where the sink
    // of the answer fails, a front of the text was.
    ensures read_fault { result ≡ Status.ReadFault →
        IsReadFault (D.files desk.new) (explained (words_of words.now))
        (D.faults desk.old, D.faults desk.new)
        (O.said out.old, O.said out.new) (E.said err.old, E.said err.new) }
    ensures write_fault { result ≡ Status.WriteFault →
        IsWriteFault (D.files desk.new) (explained (words_of words.now))
        (O.faults out.old, O.faults out.new)
        (E.faults err.old, E.faults err.new) (O.said out.old, O.said out.new)
        (E.said err.old, E.said err.new) }
    ensures no_memory { result ≡ Status.NoMemory →
        IsOutOfMemory (D.files desk.new) (explained (words_of words.now))
        (O.faults out.old, O.faults out.new)
        (O.said out.old, O.said out.new) (E.said err.old, E.said err.new) }

    // Any other answer is of a run in which no device failed: none that did is asked again, or
    // passed over.
    ensures steady { ¬ IsFault result → (D.faults desk.new ≡ D.faults desk.old)
        × (O.faults out.new ≡ O.faults out.old) × (E.faults err.new ≡ E.faults err.old) }

    // No file changes.
    ensures same { StillTells (D.files desk.old) (D.files desk.new) }
    ensures put_faults { D.put_faults desk.new ≡ D.put_faults desk.old }
{
    input_laws();
    match attempt(rt, alloc, words, desk, out) {
        Ok(()) => Status::Done,
        Err(stop) => report(alloc, err, &stop),
    }
}
