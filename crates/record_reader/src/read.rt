//! Reading a database.
ghost use Rattle.std.specs.Prelude.{IfOk, IfErr};
ghost use Rattle.serde_json.specs.View.{view};
ghost use Rattle.record_reader.specs.Faults.{IsFaultOf, IsTextFault};
ghost use Rattle.record_reader.specs.Files.{IsDatabase, IsDatabaseOf};

use crate::file::RecordsForm;
use json_readers::{JsonFault, Reader, read_json};
use reuse_db::{Database, DbFault};
use serde_json::Value;
use std::alloc::Global;

/// Reads a database: JSON of the form `{"version":1,"records":[..]}`, keys in any order, where in
/// version 2 a dependency may name virtuals. The
/// records keep the order of the file, and have their variants in byte order.
///
/// # Errors
///
/// The first of these kinds that the file has anywhere, at its first place. `NotJson`: the bytes
/// are no JSON text, or nest deeper than 127. `WrongKind`: a value has not its form; a value comes
/// before what it holds, lists go from the front, and the keys of an object in byte order, missing
/// and unknown ones among them. `HashDiffers`, `TwiceHash`, `Dangling`: as the faults say.
pub fn read_database(alloc: Global, bytes: &[u8]) -> Result<Database, DbFault>
    ensures found { IfOk result (IsDatabase bytes.now) }
    ensures fault { IfErr result (IsTextFault bytes.now) }
{
    match read_json(alloc, bytes)? {
        Some(value) => read_value(alloc, &value),
        None => Err(DbFault::NotJson),
    }
}

fn read_value(alloc: Global, value: &Value) -> Result<Database, DbFault>
    ensures found { IfOk result (IsDatabaseOf (view value.now)) }
    ensures fault { IfErr result (IsFaultOf (view value.now)) }
{
    match RecordsForm.read(alloc, value) {
        Ok(records) => Database::from_records(alloc, records),
        Err(JsonFault::Misfit(misfit)) => Err(DbFault::WrongKind(misfit.at)),
        Err(JsonFault::OutOfMemory) => Err(DbFault::OutOfMemory),
    }
}
