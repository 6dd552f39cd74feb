//! The whole program, over a runtime: the top call over the files and the streams of the machine.
//!
//! What it is: `run_machine`, which takes the words behind the program's name and ends with an exit
//! status; below it `answer_words`, which does so over any devices.
//! What it promises: that status is the number of `run`'s answer, and all that `run` promises of
//! that answer holds (`answer_words`). The word `--help` and the word `--version`, alone, are
//! answered here (`own_text`).
//! What it stands on: `concretizer`, and the machine's devices of `outside_desk`.
//! What it must not know: what the words of a command mean.
//! It stands apart from `main` so that its tests run it too.
#![tactic(auto)]

mod ending;
#[cfg(test)]
mod machine_runs;
mod one_file;
mod own_words;
mod stage_file;

ghost use Rattle.std.specs.Prelude.{◌≡◌, List, None};
ghost use Rattle.std.specs.IoError.{error_kind};
ghost use Rattle.std.specs.Process.{exit_status};
ghost use Rattle.outside_desk.specs.Files.{told};
ghost use Rattle.outside_desk.specs.RealDesk.{real_faults, real_files, real_put_faults};
ghost use Rattle.outside_desk.specs.RealSink.{real_sink_faults};
ghost use Rattle.run_output.specs.Line.{Line};
ghost use Rattle.run_output.specs.Words.{words_of};
ghost use Rattle.command_line.specs.Ends.{EndsRun, number_without_words};
ghost use Rattle.command_line.specs.OwnWords as own;

use crate::ending::{ended, report};
use crate::one_file::one_file;
use crate::stage_file::StageFile;
use concretizer::{Log, Status};
pub use ending::{answer_words, number_laws};
use outside_desk::{RealDesk, RealSink};
pub use own_words::own_text;
use std::env;
use std::env::Env;
use std::io::{Error, ErrorKind, Write};
use std::process::ExitCode;
use std::rt::Files;
use std::thread::Threads;

/// The exit status where the system refuses the words for another cause than memory.
const NO_WORDS: u8 = 10;

/// The exit status where the system refuses the words.
fn refused(error: &Error) -> ExitCode
    ensures { exit_status result ≡ number_without_words (error_kind error.now) }
{
    match error.kind() {
        ErrorKind::OutOfMemory => ended(Status::NoMemory),
        _ => ExitCode::from(NO_WORDS),
    }
}

/// Runs the words behind the program's name over the machine's files. What is answered goes to
/// `out`, and why a run stops to `err`. Where the environment names a file in
/// `SPACK_CONCRETIZE_STAGE`, that holds what the run is at.
///
/// `concretize` and `each` are refused as Usage, before anything is read, where two files that they
/// put lead to one file, or one of them to SETTINGS, DATABASE or a recipe that stands: what is put
/// there would be lost to the other. `run` compares the words alone, since a desk tells no links.
///
/// It ends with the number of the answer: its place in the list, from 0 for `Done` to 9 for
/// `NoMemory`, and 11 for `Stale`. Where the system refuses the words it says nothing, and ends
/// with 9 for want of memory and with 10 for any other cause.
pub fn run_machine<R: Env + Files + AllocGlobal + Threads + Sync, O: Write + Drop, E: Write + Drop>(
    rt: &R,
    out: O,
    err: E,
) -> ExitCode {
    let alloc = rt.alloc();
    let words: Vec<String> = match env::args(rt) {
        Ok(args) => match args.skip(1).collect(alloc) {
            Ok(words) => words,
            Err(_) => return ended(Status::NoMemory),
        },
        Err(error) => return refused(&error),
    };
    run_on_machine(rt, &words, out, err)
}

/// The same for words that the caller has. The word `--help` or `--version` alone is answered by a
/// text on `out`, and no file is looked at.
pub fn run_on_machine<
    R: Env + Files + AllocGlobal + Threads + Sync,
    O: Write + Drop,
    E: Write + Drop,
>(rt: &R, words: &[String], out: O, err: E) -> ExitCode {
    let alloc = rt.alloc();
    let mut err = RealSink::new(err);
    match one_file(alloc, rt, words) {
        Ok(None) => {}
        Ok(Some(line)) => return ended(report(alloc, &mut err, line.as_str(), Status::Usage)),
        Err(_) => return ended(Status::NoMemory),
    }
    let mut desk = RealDesk::new(rt);
    let mut out = RealSink::new(out);
    answer_on_machine(rt, words, &mut desk, &mut out, &mut err)
}

/// Answers the words over a desk of the machine, whatever it is supposed to hold: what `run` says
/// of the files that a desk tells to the end so holds of each map of files with which all agrees
/// that was read of the machine.
pub fn answer_on_machine<
    R: Env + Files + AllocGlobal + Threads + Sync,
    O: Write + Drop,
    E: Write + Drop,
>(
    rt: &R,
    words: &[String],
    desk: &mut RealDesk<'_, R, R::File>,
    out: &mut RealSink<O>,
    err: &mut RealSink<E>,
) -> ExitCode
    ensures ran { own.own_text (words_of words.now) ≡ None
        → (kept : List Line) × EndsRun (words_of words.now)
        (told (real_files desk.old) (real_files desk.new), real_files desk.new)
        (real_faults desk.old, real_faults desk.new)
        (real_put_faults desk.old, real_put_faults desk.new)
        (real_sink_faults out.old, real_sink_faults out.new)
        (real_sink_faults err.old, real_sink_faults err.new)
        (None, None) (None, None) kept (exit_status result) }
{
    let alloc = rt.alloc();
    let mut kept = Log::new(alloc);
    let mut progress = StageFile::new(rt);
    answer_words(rt, alloc, words, desk, out, err, &mut kept, &mut progress)
}
