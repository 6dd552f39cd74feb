//! The reading of the words.

ghost use Rattle.std.specs.Prelude.{IfOk, ◌≡◌};
ghost use Rattle.run_words.specs.Reading.{GivesCommand};
ghost use Rattle.run_words.specs.Words.{words_of, lock_path, cert_path};

use crate::command::Command;
use crate::verbs::command_of;
use run_answers::{ReadStop, Stop};
use std::alloc::Global;

/// The command that the words are.
///
/// # Errors
///
/// `Usage` where they are none.
pub fn read_command<'a>(alloc: Global, words: &'a [String]) -> Result<Command<'a>, Stop>
    ensures read { GivesCommand (words_of words.now) result }
    ensures lock { IfOk result (λ command. command.lock ≡ lock_path (words_of words.now)) }
    ensures cert { IfOk result (λ command. command.cert ≡ cert_path (words_of words.now)) }
{
    match command_of(alloc, words) {
        Ok(Some(command)) => Ok(command),
        Ok(None) => Err(Stop::Usage),
        Err(_) => Err(Stop::Read(ReadStop::NoMemory)),
    }
}
