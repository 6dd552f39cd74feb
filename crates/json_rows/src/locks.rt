//! What the rows ask of records, databases, and lock files that are read and written again.

use crate::show_locks::{database_fault, database_text, fault_text, lock_text};
use json_readers::{JsonFault, ListOf, Reader, read_json};
use lockfile::{Lock, can_be_written, read_lock, write_lock};
use plain_data::List;
use record_reader::{RecordForm, read_database};
use reuse_db::{Database, DbFault, Record, canonical};
use spec_grammar::{Spec, read_specs};
use spec_hash::hash_text;
use std::alloc::{AllocError, Global};

/// What was read last.
#[derive(Drop)]
pub(crate) struct Kept {
    pub database: Database,
    pub lock: Option<Lock>,
    pub text: Vec<u8>,
}

/// A record's canonical text and the hash of that.
pub(crate) fn record_answer(alloc: Global, text: &str) -> Result<String, AllocError> {
    match record_in(alloc, text) {
        Ok(entry) => canonical_answer(alloc, &entry),
        Err(JsonFault::Misfit(misfit)) => {
            let at = misfit.at;
            format!(in alloc; "WrongKind {at}")
        }
        Err(JsonFault::OutOfMemory) => Err(AllocError),
    }
}

fn record_in(alloc: Global, text: &str) -> Result<Record, JsonFault> {
    match read_json(alloc, text.as_bytes())? {
        Some(value) => RecordForm {
            may_name_virtuals: true,
        }
        .read(alloc, &value),
        None => Err(JsonFault::OutOfMemory),
    }
}

fn canonical_answer(alloc: Global, entry: &Record) -> Result<String, AllocError> {
    let text = canonical(alloc, entry)?;
    let hash = hash_text(text.as_slice());
    let text = String::from_utf8_lossy(alloc, text.as_slice())?;
    let hash = hash.as_str();
    format!(in alloc; "{text} {hash}")
}

/// The database of a list of records, which is kept.
pub(crate) fn database_answer(
    alloc: Global,
    kept: &mut Kept,
    text: &str,
) -> Result<String, AllocError> {
    match database_in(alloc, text) {
        Ok(database) => {
            let shown = database_text(alloc, &database)?;
            kept.database = database;
            Ok(shown)
        }
        Err(fault) => database_fault(alloc, &fault),
    }
}

fn database_in(alloc: Global, text: &str) -> Result<Database, DbFault> {
    match records_in(alloc, text) {
        Ok(records) => Database::from_records(alloc, records),
        Err(JsonFault::Misfit(misfit)) => Err(DbFault::WrongKind(misfit.at)),
        Err(JsonFault::OutOfMemory) => Err(DbFault::OutOfMemory),
    }
}

fn records_in(alloc: Global, text: &str) -> Result<List<Record>, JsonFault> {
    match read_json(alloc, text.as_bytes())? {
        Some(value) => ListOf(RecordForm {
            may_name_virtuals: true,
        })
        .read(alloc, &value),
        None => Err(JsonFault::OutOfMemory),
    }
}

/// What a whole database is read as.
pub(crate) fn file_answer(alloc: Global, bytes: &[u8]) -> Result<String, AllocError> {
    match read_database(alloc, bytes) {
        Ok(database) => database_text(alloc, &database),
        Err(fault) => record_reader::fault_text(alloc, &fault),
    }
}

/// What a lock file is read as, which is kept.
pub(crate) fn lock_answer(
    alloc: Global,
    kept: &mut Kept,
    text: &str,
) -> Result<String, AllocError> {
    match read_lock(alloc, text.as_bytes()) {
        Ok(lock) => {
            let shown = lock_text(alloc, &lock)?;
            kept.text = Vec::new(alloc);
            kept.text.extend_from_slice(text.as_bytes())?;
            kept.text.push(b'\n')?;
            kept.lock = Some(lock);
            Ok(shown)
        }
        Err(fault) => fault_text(alloc, &fault),
    }
}

/// Whether the lock that was kept is written as it was read, and if not, how it is.
pub(crate) fn written_answer(alloc: Global, kept: &Kept) -> Result<String, AllocError> {
    let Some(lock) = &kept.lock else {
        return String::from_str(alloc, "nothing was read");
    };
    let Some(roots) = specs_of(alloc, lock)? else {
        return String::from_str(alloc, "a root is no spec");
    };
    if !can_be_written(alloc, &lock.graph, &kept.database, roots.as_slice())? {
        return String::from_str(alloc, "cannot be written");
    }
    let text = write_lock(alloc, &lock.graph, &kept.database, roots.as_slice())?;
    if text.as_slice() == kept.text.as_slice() {
        String::from_str(alloc, "same")
    } else {
        String::from_utf8_lossy(alloc, &text[..text.len() - 1])
    }
}

/// Whether a lock file without installed nodes is written as it was read.
pub(crate) fn again_text(alloc: Global, text: Vec<u8>) -> Result<String, AllocError> {
    match read_lock(alloc, &text) {
        Ok(lock) => {
            let database = Database::empty(alloc);
            written_answer(
                alloc,
                &Kept {
                    database,
                    lock: Some(lock),
                    text,
                },
            )
        }
        Err(fault) => fault_text(alloc, &fault),
    }
}

/// The roots of a lock as specs; `None` where one is none.
fn specs_of(alloc: Global, lock: &Lock) -> Result<Option<Vec<Spec>>, AllocError> {
    let mut specs = Vec::new(alloc);
    for (text, _) in lock.roots.as_slice() {
        match read_specs(alloc, text.as_str()) {
            Ok(list) => {
                for spec in list.into_vec() {
                    specs.push(spec)?;
                }
            }
            Err(_) => return Ok(None),
        }
    }
    Ok(Some(specs))
}
