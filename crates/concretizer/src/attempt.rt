//! The reading of a task, and the writing of its answer.

ghost use Rattle.std.specs.Prelude.{◌≡◌, ◌≤◌, [], Some, None, IfOk, IfSome};
ghost use Rattle.outside_desk.specs.Causes.{Counts};
ghost use Rattle.outside_desk.specs.Files.{told};
ghost use Rattle.run_output.specs.Evidence.{evidence};
ghost use Rattle.run_output.specs.Stops.{stop_status, stop_line};
ghost use Rattle.run_output.specs.Words.{words_of, command_of};
ghost use Rattle.concretizer.specs.Attempts.{Attempts, Concludes, Follows, StopsAtOnce, StopsBefore, FailsToRead, FailsToPut, FailsToSay};
ghost use Rattle.concretizer.specs.Logs.{AttemptKeeps};
ghost use Rattle.concretizer.specs.Headline.{Keeps, Reports, ShowsBy};

use outside_desk::{Desk, Sink, SinkFault};
use run_output::{
    Command, Log, Outcome, Progress, Stage, Status, Stop, Work, read_command, read_task,
    write_answer,
};
use std::alloc::Global;
use std::thread::Threads;

/// What a run of this command is at while it reads.
fn reading_of(command: &Command<'_>) -> Stage {
    match command.work {
        Work::Concretize
        | Work::Each
        | Work::Fresh
        | Work::Explain
        | Work::Reasons
        | Work::Find
        | Work::Trial { .. } => Stage::Reading,
        Work::Judge | Work::Check | Work::CheckEach | Work::Refute | Work::Plan => Stage::Checking,
    }
}

/// Reads the task that a command names, and writes its answer. The command is that of the words.
fn attempt_by<R: Threads + Sync, D: Desk, O: Sink, P: Progress>(
    rt: &R,
    alloc: Global,
    _words: &[String],
    command: &Command<'_>,
    desk: &mut D,
    out: &mut O,
    kept: &mut Log,
    progress: &mut P,
) -> Result<Outcome, Stop>
    requires named { command_of (words_of _words.now) ≡ Some command.now }
    requires empty { kept.old ≡ [] }
    ensures outcome { IfSome (told (D.files desk.old) (D.files desk.new))
        (λ files. Attempts evidence files (words_of _words.now) (D.files desk.new) (O.said out.old)
        (O.said out.new) result) }
    ensures shown { IfOk result (λ outcome. IfSome (told (D.files desk.old) (D.files desk.new))
        (λ files. ShowsBy outcome files (words_of _words.now))) }
    ensures follows { Follows (told (D.files desk.old) (D.files desk.new)) (words_of _words.now)
        result }
    ensures unread { FailsToRead result
        → D.files desk.new ≡ told (D.files desk.old) (D.files desk.new) }
    ensures unsaid { StopsBefore result → O.said out.new ≡ O.said out.old }
    ensures steady { Concludes result → (D.faults desk.new ≡ D.faults desk.old)
        × (D.put_faults desk.new ≡ D.put_faults desk.old)
        × (O.faults out.new ≡ O.faults out.old) }
    ensures held { IfSome (told (D.files desk.old) (D.files desk.new))
        (λ files. Keeps evidence files (words_of _words.now) (D.files desk.new)) }
    ensures kept { IfSome (told (D.files desk.old) (D.files desk.new))
        (λ files. AttemptKeeps files (words_of _words.now) (D.files desk.new)
        (O.said out.old, O.said out.new) kept.new result) }
    ensures read { Counts (D.faults desk.old) (D.faults desk.new) (FailsToRead result) }
    ensures put { Counts (D.put_faults desk.old) (D.put_faults desk.new) (FailsToPut result) }
    ensures said { Counts (O.faults out.old) (O.faults out.new) (FailsToSay result) }
{
    progress.tell(reading_of(command));
    let task = read_task(rt, alloc, desk, command)?;
    let answer = write_answer(
        rt,
        alloc,
        &task,
        command.lock,
        command.cert,
        desk,
        out,
        kept,
        progress,
    );
    drop(task);
    Ok(answer?)
}

/// Reads the task that the words name, and writes its answer. The log of what was searched is kept,
/// in the place of what was there, and `progress` is told how far the run is.
pub fn attempt<R: Threads + Sync, D: Desk, O: Sink, P: Progress>(
    rt: &R,
    alloc: Global,
    words: &[String],
    desk: &mut D,
    out: &mut O,
    kept: &mut Log,
    progress: &mut P,
) -> Result<Outcome, Stop>
    ensures outcome { IfSome (told (D.files desk.old) (D.files desk.new))
        (λ files. Attempts evidence files (words_of words.now) (D.files desk.new) (O.said out.old)
        (O.said out.new) result) }
    ensures shown { IfOk result (λ outcome. IfSome (told (D.files desk.old) (D.files desk.new))
        (λ files. ShowsBy outcome files (words_of words.now))) }
    ensures follows { Follows (told (D.files desk.old) (D.files desk.new)) (words_of words.now)
        result }
    ensures at_once { command_of (words_of words.now) ≡ None → StopsAtOnce result
        × (D.files desk.new ≡ D.files desk.old) × (O.said out.new ≡ O.said out.old)
        × (D.faults desk.new ≡ D.faults desk.old) × (D.put_faults desk.new ≡ D.put_faults desk.old)
        × (O.faults out.new ≡ O.faults out.old) }
    ensures unread { FailsToRead result
        → D.files desk.new ≡ told (D.files desk.old) (D.files desk.new) }
    ensures unsaid { StopsBefore result → O.said out.new ≡ O.said out.old }
    ensures steady { Concludes result → (D.faults desk.new ≡ D.faults desk.old)
        × (D.put_faults desk.new ≡ D.put_faults desk.old)
        × (O.faults out.new ≡ O.faults out.old) }
    ensures held { IfSome (told (D.files desk.old) (D.files desk.new))
        (λ files. Keeps evidence files (words_of words.now) (D.files desk.new)) }
    ensures kept { IfSome (told (D.files desk.old) (D.files desk.new))
        (λ files. AttemptKeeps files (words_of words.now) (D.files desk.new)
        (O.said out.old, O.said out.new) kept.new result) }
    ensures read { Counts (D.faults desk.old) (D.faults desk.new) (FailsToRead result) }
    ensures put { Counts (D.put_faults desk.old) (D.put_faults desk.new) (FailsToPut result) }
    ensures said { Counts (O.faults out.old) (O.faults out.new) (FailsToSay result) }
{
    *kept = Log::new(alloc);
    match read_command(alloc, words) {
        Ok(command) => attempt_by(rt, alloc, words, &command, desk, out, kept, progress),
        Err(stop) => Err(stop),
    }
}

/// Says why a run stops, and answers so.
pub fn report<E: Sink>(alloc: Global, err: &mut E, stop: &Stop) -> Status
    ensures reports { Reports (stop_status stop.now) (stop_line stop.now)
        (E.said err.old, E.said err.new) (E.faults err.old, E.faults err.new) result }
    ensures later { E.faults err.old ≤ E.faults err.new }
{
    let Ok(line) = stop.line(alloc) else {
        return Status::NoMemory;
    };
    match err.say(alloc, line.as_bytes()) {
        Ok(()) => stop.status(),
        Err(SinkFault::Failed) => Status::WriteFault,
        Err(SinkFault::OutOfMemory) => Status::NoMemory,
    }
}
