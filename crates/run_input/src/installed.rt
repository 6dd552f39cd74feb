//! The reading of a database.

ghost use Rattle.std.specs.Prelude.{◌≡◌, ◌≤◌, ◌^◌, true, length, IfOk, IfSome};
ghost use Rattle.std.specs.List.{list_all};
ghost use Rattle.file_limits.specs.Values.{has_values};
ghost use Rattle.problem.specs.Limits.{are_few_records};
ghost use Rattle.run_answers.specs.Reads.{OnlyReads};
ghost use Rattle.run_answers.specs.Stops.{Gives, EndsInReadFault};
ghost use Rattle.run_words.specs.Words.{is_dash_path};
ghost use Rattle.run_input.specs.Installed.{DatabaseIn, DatabaseAt};
ghost use Rattle.run_input.specs.Named.{FailsThere};

use crate::{ReadRecords, WholeFile, read_bytes};
use file_limits::{database_count_laws, value_laws};
use outside_desk::Desk;
use record_reader::read_database;
use reuse_db::{Database, DbFault};
use run_answers::{ReadStop, Refusal};
use run_words::is_dash;
use std::alloc::Global;

/// The database that the bytes of a file are.
fn database_in(alloc: Global, bytes: &[u8]) -> Result<Database, ReadStop>
    requires { length bytes.now ≤ 2 ^ 26 }
    ensures read { Gives result (DatabaseIn bytes.now) }
    ensures values { IfOk result (λ database. list_all has_values database ≡ true) }
    ensures few { IfOk result (λ database. are_few_records database ≡ true) }
    ensures no_fault { EndsInReadFault result → ⊥ }
{
    value_laws();
    database_count_laws();
    match read_database(alloc, bytes) {
        Ok(database) => Ok(database),
        Err(DbFault::OutOfMemory) => Err(ReadStop::NoMemory),
        Err(fault) => Err(ReadStop::Refused(Refusal::BadDatabase(fault))),
    }
}

/// The database that a path names: that of the file there, or one without records where the path is
/// `-`.
///
/// # Errors
///
/// `MissingInput` where there is no such file, `DatabaseTooLarge` beyond 64 MiB, `BadDatabase` with
/// the first fault of the text. `Fault` where the desk failed, with the path.
pub fn read_installed<D: Desk>(
    alloc: Global,
    desk: &mut D,
    path: &str,
) -> Result<ReadRecords, ReadStop>
    ensures read { IfSome (D.files desk.new) (λ files. Gives result (DatabaseAt files path.now)) }
    ensures path { FailsThere path.now result }
    ensures only_reads { OnlyReads D.files D.faults D.put_faults desk.old desk.new result }
{
    if is_dash(path) {
        return Ok(ReadRecords::new(Database::empty(alloc)));
    }
    let bytes = read_bytes(alloc, desk, path, WholeFile::Database)?;
    let records = database_in(alloc, bytes.as_slice())?;
    Ok(ReadRecords::new(records))
}
