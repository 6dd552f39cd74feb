//! The reading of one file.

ghost use Rattle.std.specs.Prelude.{◌≡◌, ◌≤◌, length, IfOk, IfSome};
ghost use Rattle.run_answers.specs.Reads.{OnlyReads};
ghost use Rattle.run_answers.specs.Stops.{EndsInReadFault};
ghost use Rattle.run_input.specs.Bytes.{bytes_at, limit_of, GivesBytes, FailsAt};

use crate::WholeFile;
use outside_desk::{Desk, ReadFault, read_whole};
use plain_data::Word;
use run_answers::{ReadStop, Refusal};
use std::alloc::Global;

/// The bytes of the file at a path.
///
/// # Errors
///
/// `MissingInput` where there is no such file; `SettingsTooLarge`, `DatabaseTooLarge` or
/// `LockTooLarge` where it has more bytes than a file of its kind may have. `Fault` where the desk
/// failed, with the path, and nowhere else a fault of the desk (`told`).
#[tactic(auto, unfolding(crate::specs::Bytes::bytes_at))]
pub fn read_bytes<D: Desk>(
    alloc: Global,
    desk: &mut D,
    path: &str,
    file: WholeFile,
) -> Result<Vec<u8>, ReadStop>
    ensures read { IfSome (D.files desk.new)
        (λ files. GivesBytes (bytes_at files path.now file) result) }
    ensures short { IfOk result (λ bytes. length bytes.items ≤ limit_of file) }
    ensures path { FailsAt path.now result }
    ensures only_reads { OnlyReads D.files D.faults D.put_faults desk.old desk.new result }
    ensures told { ¬ EndsInReadFault result → D.faults desk.new ≡ D.faults desk.old }
{
    // It is made first: behind a fault of the desk nothing more can fail, so that it is told as
    // one.
    let name = Word::new(alloc, path)?;
    match read_whole(alloc, desk, path, file.limit()) {
        Ok(bytes) => Ok(bytes),
        Err(ReadFault::TooLong) => file.refused(),
        Err(ReadFault::Missing) => Err(ReadStop::Refused(Refusal::MissingInput(name))),
        Err(ReadFault::Failed) => Err(ReadStop::Fault(name)),
        Err(ReadFault::OutOfMemory) => Err(ReadStop::NoMemory),
    }
}
