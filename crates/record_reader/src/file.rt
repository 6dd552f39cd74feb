//! The values of a file.
ghost use Rattle.std.specs.Prelude.{◌≡◌};
ghost use Rattle.serde_json.specs.View.{members_view};
ghost use Rattle.record_reader.specs.Files.{may_name_virtuals, records_at, version_at};

use crate::RecordForm;
use json_readers::{
    JsonFault, ListOf, Reader, WholeNumber, Wrong, at_root, field, first_odd, member, members_of,
    none_odd,
};
use plain_data::List;
use reuse_db::Record;
use serde_json::{Map, Value};
use std::alloc::Global;

/// An object with `records` and `version`.
#[derive(Clone, Copy)]
pub struct RecordsForm;

impl Reader<List<Record>> for RecordsForm {
    ghost reads = { λ _. records_at };

    #[tactic(auto, unfolding(crate::specs::Files::records_at))]
    fn read(&self, alloc: Global, value: &Value) -> Result<List<Record>, JsonFault> {
        let members = members_of(alloc, value)?;
        let may_name_virtuals = may_name_virtuals(members);
        let odd = first_odd(members, &["records", "version"]);
        let records = field(
            alloc,
            members,
            odd,
            "records",
            &ListOf(RecordForm { may_name_virtuals }),
        )?;
        let _version = field(alloc, members, odd, "version", &FileVersion)?;
        none_odd(alloc, odd)?;
        Ok(records)
    }
}

/// Whether the version of a file's format is 2, in which dependencies may name virtuals.
pub fn may_name_virtuals(members: &Map<String, Value>) -> bool
    ensures { result ≡ may_name_virtuals (members_view members.now.entries) }
{
    match member(members, "version") {
        Some(version) => version.as_u64() == Some(2),
        None => false,
    }
}

/// The number 1 or 2, the version of a file's format.
#[derive(Clone, Copy)]
pub struct FileVersion;

impl Reader<u64> for FileVersion {
    ghost reads = { λ _. version_at };

    fn read(&self, alloc: Global, value: &Value) -> Result<u64, JsonFault> {
        let version = WholeNumber.read(alloc, value)?;
        if version == 1 || version == 2 {
            Ok(version)
        } else {
            at_root(alloc, Wrong::WrongKind)
        }
    }
}
