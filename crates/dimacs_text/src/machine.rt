//! Encodings over the files of the machine.

ghost use Rattle.std.specs.Prelude.{◌≡◌};
ghost use Rattle.std.specs.Process.{exit_status};
ghost use Rattle.run_input.specs.Exits.{number_of};

use crate::top::run;
use outside_desk::{RealDesk, RealSink};
use run_input::Status;
use std::env;
use std::env::Env;
use std::io::{Error, ErrorKind, Write};
use std::process::ExitCode;
use std::rt::Files;
use std::thread::Threads;

/// The exit status where the system refuses the words for another cause than memory.
const NO_WORDS: u8 = 10;

/// The exit status of an answer.
fn ended(status: Status) -> ExitCode
    ensures { exit_status result ≡ number_of status }
{
    ExitCode::from(status.number())
}

/// The exit status where the system refuses the words.
fn refused(error: &Error) -> ExitCode {
    match error.kind() {
        ErrorKind::OutOfMemory => ended(Status::NoMemory),
        _ => ExitCode::from(NO_WORDS),
    }
}

/// Says on `out` the encoding that the words behind the program's name ask for, over the machine's
/// files, and on `err` why a run stops.
///
/// It ends with the place of the answer in the list of answers: 0 for `Done`, 2 for `Usage`, 4 for
/// `BadInput`, 5 for `ReadFault`, 6 for `WriteFault`, 7 for `TooLarge`, 9 for `NoMemory`. Where the
/// system refuses the words it says nothing, and ends with 9 for want of memory and with 10 for any
/// other cause.
pub fn dimacs_machine<
    R: Env + Files + Threads + Sync + AllocGlobal,
    O: Write + Drop,
    E: Write + Drop,
>(rt: &R, out: O, err: E) -> ExitCode {
    let alloc = rt.alloc();
    let words: Vec<String> = match env::args(rt) {
        Ok(args) => match args.skip(1).collect(alloc) {
            Ok(words) => words,
            Err(_) => return ended(Status::NoMemory),
        },
        Err(error) => return refused(&error),
    };
    let mut desk = RealDesk::new(rt);
    let mut out = RealSink::new(out);
    let mut err = RealSink::new(err);
    ended(run(rt, alloc, &words, &mut desk, &mut out, &mut err))
}
