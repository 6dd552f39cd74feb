//! The places of hashes.
ghost use Rattle.std.specs.Prelude.{◌≡◌, ◌⊎◌, ℕ, List, Some, OnOk, IfOk, IfErr};
ghost use Rattle.std.specs.BTreeMap.{get_by_text};
ghost use Rattle.std.specs.Map.{update};
ghost use Rattle.std.specs.Str.{bytes_eq};
ghost use Rattle.reachability.specs.TextPlaces.{ArePlaces};
ghost use Rattle.reuse_db.specs.Databases.{HasNoTwice, IsTwiceFault, hashes_of};

use crate::{DbFault, Record};
use std::alloc::{AllocError, Global};
use std::collections::BTreeMap;

/// The place of each record's hash.
pub fn places_of(alloc: Global, records: &[Record]) -> Result<BTreeMap<String, usize>, DbFault>
    ensures places { IfOk result (λ places. ArePlaces (hashes_of records.now) places) }
    ensures once { OnOk result (HasNoTwice records.now) }
    ensures fault { IfErr result (IsTwiceFault records.now) }
{
    let mut places = BTreeMap::new(alloc);
    for (i, entry) in records.iter().enumerate() {
        let hash = entry.hash.as_str();
        match place_in(&places, hash) {
            Some(_) => return Err(DbFault::TwiceHash(entry.hash)),
            None => add_place(alloc, &mut places, hash, i)?,
        }
    }
    Ok(places)
}

/// The place of a hash.
pub fn place_in(places: &BTreeMap<String, usize>, hash: &str) -> Option<usize>
    ensures { result ≡ get_by_text places.now hash.now }
{
    places.get(hash).copied()
}

// Adds a hash at the next place.
fn add_place(
    alloc: Global,
    places: &mut BTreeMap<String, usize>,
    hash: &str,
    place: usize,
) -> Result<(), AllocError>
    ensures { OnOk result ((q : List ℕ)
        → get_by_text places.new q ≡ update bytes_eq (get_by_text places.old) hash.now
        (Some place) q) }
{
    places.insert(String::from_str(alloc, hash)?, place)?;
    Ok(())
}
