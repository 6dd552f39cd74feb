//! Replays over the files of the machine.

ghost use Rattle.std.specs.Prelude.{◌≡◌};
ghost use Rattle.std.specs.Process.{exit_status};
ghost use Rattle.scenario_replay.specs.Told.{exit_of};

use crate::comparison::Replayed;
use crate::top::replay;
use outside_desk::{RealDesk, RealSink};
use std::env;
use std::env::Env;
use std::io::Write;
use std::process::ExitCode;
use std::rt::Files;
use std::thread::Threads;

/// The exit status where there are no words.
const USAGE: u8 = 64;

/// The exit status of an answer.
fn ended(replayed: Replayed) -> ExitCode
    ensures { exit_status result ≡ exit_of replayed }
{
    ExitCode::from(match replayed {
        Replayed::Same => 0,
        Replayed::Differs => 1,
        Replayed::Broken => 2,
    })
}

/// Replays the scenarios of the files and folders that the words behind the program's name name,
/// and says on `out` what comes of each.
///
/// It ends with 0 where there was a scenario and nothing differed, with 1 where something differed
/// or was no scenario, with 2 where a line could not be said or memory ran out, and with 64 where
/// there are no words.
pub fn replay_machine<R: Env + Files + AllocGlobal + Threads + Sync, O: Write + Drop>(
    rt: &R,
    out: O,
) -> ExitCode {
    let alloc = rt.alloc();
    let words: Vec<String> = match env::args(rt) {
        Ok(args) => match args.skip(1).collect(alloc) {
            Ok(words) => words,
            Err(_) => return ended(Replayed::Broken),
        },
        Err(_) => return ended(Replayed::Broken),
    };
    if words.is_empty() {
        return ExitCode::from(USAGE);
    }
    let mut desk = RealDesk::new(rt);
    let mut out = RealSink::new(out);
    ended(replay(rt, alloc, &words, &mut desk, &mut out))
}
