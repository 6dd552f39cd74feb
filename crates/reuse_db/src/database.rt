//! Installed packages.
ghost use Rattle.std.specs.Prelude.{◌≡◌, [], None, find, slice_get, IfOk, IfErr, OnOk};
ghost use Rattle.std.specs.List.{list_any};
ghost use Rattle.std.specs.Option.{option_copied};
ghost use Rattle.std.specs.Str.{bytes_eq};
ghost use Rattle.reachability.specs.TextPlaces.{ArePlaces};
ghost use Rattle.reuse_db.specs.Databases.{AreRecords, IsDatabaseFault, IsHashFault, hashes_of};
ghost use Rattle.reuse_db.specs.Databases.{record_of, differing, dangling, is_lost};

use crate::places::{place_in, places_of};
use crate::text::canonical;
use crate::{DbFault, Dependency, Record};
use plain_data::List;
use spec_hash::{Hash, hash_text};
use std::alloc::Global;
use std::collections::BTreeMap;
use std::marker::Model;

/// Records, seen as the list of them in the order in which they were given.
#[derive(Debug, Drop)]
pub struct Database {
    records: List<Record>,
    /// The place of each hash.
    places: BTreeMap<String, usize>,
}

impl Model for Database {
    ghost use Rattle.std.specs.Prelude.{List};
    ghost use Rattle.reuse_db.specs.Databases.{AreRecords, hashes_of};
    ghost use Rattle.reachability.specs.TextPlaces.{ArePlaces};
    ghost use Rattle.reuse_db.specs.declared.record.Record.{Record};

    ghost Value = { List Record };

    ghost view = { λ database. database.records };

    ghost invariant = { λ database. record { right : AreRecords database.records; places : ArePlaces (hashes_of database.records) database.places } };
}

impl Database {
    /// No record.
    pub fn empty(alloc: Global) -> Database
        ensures { result ≡ [] }
    {
        Database {
            records: List::new(alloc),
            places: BTreeMap::new(alloc),
        }
    }

    /// The database of these records; takes them whatever it answers.
    ///
    /// It needs the canonical text of each record, and a search for each record and each child.
    pub fn from_records(alloc: Global, records: List<Record>) -> Result<Database, DbFault>
        ensures database { IfOk result (λ database. database ≡ records) }
        ensures right { OnOk result (AreRecords records) }
        ensures fault { IfErr result (IsDatabaseFault records) }
    {
        let places = right_places(alloc, records.as_slice())?;
        Ok(Database { records, places })
    }

    /// The records, in the order in which they were given.
    pub fn records(&self) -> &[Record]
        ensures records { result.now ≡ self.now }
        ensures right { AreRecords self.now }
    {
        self.records.as_slice()
    }

    /// The record with a hash.
    pub fn find(&self, hash: &Hash) -> Option<&Record>
        ensures { option_copied result ≡ record_of self.now hash.now }
    {
        let records = self.records.as_slice();
        match place_in(&self.places, hash.as_str()) {
            Some(place) => record_at(records, place),
            None => None,
        }
    }
}

fn record_at(records: &[Record], place: usize) -> Option<&Record>
    ensures { option_copied result ≡ slice_get records.now place }
{
    records.get(place)
}

// The places of the hashes of records without a fault.
fn right_places(alloc: Global, records: &[Record]) -> Result<BTreeMap<String, usize>, DbFault>
    ensures places { IfOk result (λ places. ArePlaces (hashes_of records.now) places) }
    ensures right { OnOk result (AreRecords records.now) }
    ensures fault { IfErr result (IsDatabaseFault records.now) }
{
    check_hashes(alloc, records)?;
    let places = places_of(alloc, records)?;
    match first_dangling(records, &places) {
        Some(pair) => Err(DbFault::Dangling {
            parent: pair.0,
            child: pair.1,
        }),
        None => Ok(places),
    }
}

// Looks for the first record whose hash is not the computed one.
fn check_hashes(alloc: Global, records: &[Record]) -> Result<(), DbFault>
    ensures same { OnOk result (differing records.now ≡ None) }
    ensures fault { IfErr result (IsHashFault records.now) }
{
    for entry in records {
        let text = canonical(alloc, entry)?;
        let computed = hash_text(text.as_slice());
        if entry.hash.as_str() != computed.as_str() {
            return Err(DbFault::HashDiffers {
                written: entry.hash,
                computed,
            });
        }
    }
    Ok(())
}

// The first link or run child that is no record, behind its parent.
fn first_dangling(records: &[Record], places: &BTreeMap<String, usize>) -> Option<(Hash, Hash)>
    requires { ArePlaces (hashes_of records.now) places.now }
    ensures { result ≡ dangling (hashes_of records.now) records.now }
{
    for entry in records {
        if let Some(child) = lost_child(records, entry, places) {
            return Some((entry.hash, child.hash));
        }
    }
    None
}

/// The first child of a record that is needed at run time or for linking and is not there.
fn lost_child<'a>(
    records: &[Record],
    entry: &'a Record,
    places: &BTreeMap<String, usize>,
) -> Option<&'a Dependency>
    requires { ArePlaces (hashes_of records.now) places.now }
    ensures { option_copied result ≡ find (is_lost (hashes_of records.now)) entry.now.dependencies }
{
    for child in entry.dependencies.as_slice() {
        if is_lost(records, child, places) {
            return Some(child);
        }
    }
    None
}

fn is_lost(records: &[Record], child: &Dependency, places: &BTreeMap<String, usize>) -> bool
    requires { ArePlaces (hashes_of records.now) places.now }
    ensures { result ≡ is_lost (hashes_of records.now) child.now }
{
    (child.kinds.link || child.kinds.run) && !is_known(records, &child.hash, places)
}

fn is_known(records: &[Record], hash: &Hash, places: &BTreeMap<String, usize>) -> bool
    requires { ArePlaces (hashes_of records.now) places.now }
    ensures { result ≡ list_any (bytes_eq hash.now) (hashes_of records.now) }
{
    let _ = records;
    place_in(places, hash.as_str()).is_some()
}
