//! Records that meet a spec: `find SPEC` has their names and versions, by bytes of their hashes.

use crate::show::push_word;
use condition_rules::World;
use reuse_db::{Database, Record};
use spec_find::find;
use spec_grammar::{SpecFault, read_condition};
use std::alloc::{AllocError, Global};

fn push_record(text: &mut String, entry: &Record) -> Result<(), AllocError> {
    push_word(text, entry.name.as_str())?;
    text.push_str("@")?;
    text.push_str(entry.version.text())
}

fn push_found(text: &mut String, records: &[Record], places: &[u64]) -> Result<(), AllocError> {
    for place in places {
        match records.get(*place as usize) {
            Some(entry) => push_record(text, entry)?,
            None => push_word(text, "none")?,
        }
    }
    Ok(())
}

/// The records of a database that meet the spec.
pub(crate) fn found_text(
    alloc: Global,
    world: &World,
    database: &Database,
    spec: &str,
) -> Result<String, AllocError> {
    let spec = match read_condition(alloc, spec) {
        Ok(spec) => spec,
        Err(SpecFault::OutOfMemory) => return Err(AllocError),
        Err(_) => return String::from_str(alloc, "no spec"),
    };
    let mut text = String::from_str(alloc, "found")?;
    let places = find(alloc, world, database, &spec)?;
    push_found(&mut text, database.records(), places.as_slice())?;
    Ok(text)
}
