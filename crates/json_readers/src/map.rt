//! Maps, and what may be null.

ghost use Rattle.std.specs.Prelude.{◌≡◌, option_map, is_some};
ghost use Rattle.serde_json.specs.View.{view, members_view};
ghost use Rattle.json_readers.specs.Faults.{Gives, seen_as};
ghost use Rattle.json_readers.specs.Objects.{null_or};
ghost use Rattle.json_readers.specs.Maps.{entries_of, entry_of, first_other, known_map_of, map_of};
ghost use Rattle.json_readers.specs.Maps.{named};

use crate::fault::{at_key, at_root, below};
use crate::{JsonFault, Reader, TextForm, Wrong, members_of};
use plain_data::{List, Word};
use serde_json::{Map, Value};
use std::alloc::Global;

/// A map from texts of a form, where another key is of the wrong kind at its turn.
#[derive(Clone, Copy)]
pub struct MapOf<F, R> {
    pub keys: F,
    pub values: R,
}

impl<T: Drop, F: TextForm, R: Reader<T>> Reader<List<(Word, T)>> for MapOf<F, R> {
    ghost reads = { λ map. map_of (F.means map.keys) (R.reads map.values) };

    fn read(&self, alloc: Global, value: &Value) -> Result<List<(Word, T)>, JsonFault> {
        let members = members_of(alloc, value)?;
        read_entries(alloc, members, &self.keys, &self.values)
    }
}

/// A map from texts of a form, where another key is an unknown one, and comes first.
#[derive(Clone, Copy)]
pub struct KnownMapOf<F, R> {
    pub keys: F,
    pub values: R,
}

impl<T: Drop, F: TextForm, R: Reader<T>> Reader<List<(Word, T)>> for KnownMapOf<F, R> {
    ghost reads = { λ map. known_map_of (F.means map.keys) (R.reads map.values) };

    fn read(&self, alloc: Global, value: &Value) -> Result<List<(Word, T)>, JsonFault> {
        let members = named(alloc, value, &self.keys)?;
        read_entries(alloc, members, &self.keys, &self.values)
    }
}

/// The members of an object whose keys all have a form.
pub fn named<'v, F: TextForm>(
    alloc: Global,
    value: &'v Value,
    form: &F,
) -> Result<&'v Map<String, Value>, JsonFault>
    ensures { Gives (seen_as (λ m. members_view m.now.entries) result)
        (named (F.means form.now) (view value.now)) }
{
    let members = members_of(alloc, value)?;
    match first_other(members, form) {
        Some(key) => at_key(alloc, Wrong::UnknownKey, key),
        None => Ok(members),
    }
}

/// The least key that has not the form.
fn first_other<'v, F: TextForm>(members: &'v Map<String, Value>, form: &F) -> Option<&'v str>
    ensures { option_map (λ k. k.now) result
        ≡ first_other (F.means form.now) (members_view members.now.entries) }
{
    for (key, _) in members.iter() {
        if !fits(form, key.as_str()) {
            return Some(key.as_str());
        }
    }
    None
}

fn fits<F: TextForm>(form: &F, text: &str) -> bool
    ensures { result ≡ is_some (F.means form.now text.now) }
{
    match form.meaning(text) {
        Some(_) => true,
        None => false,
    }
}

/// Each member, by the form of its key and the reader of its value.
fn read_entries<T: Drop, F: TextForm, R: Reader<T>>(
    alloc: Global,
    members: &Map<String, Value>,
    form: &F,
    reader: &R,
) -> Result<List<(Word, T)>, JsonFault>
    ensures { Gives result
        (entries_of (F.means form.now) (R.reads reader.now) (members_view members.now.entries)) }
{
    let mut read = List::new(alloc);
    for (key, value) in members.iter() {
        let entry = read_entry(alloc, key.as_str(), value, form, reader)?;
        read.push((Word::new(alloc, key.as_str())?, entry))?;
    }
    Ok(read)
}

#[tactic(auto, using(crate::proofs::Raising::raised))]
fn read_entry<T: Drop, F: TextForm, R: Reader<T>>(
    alloc: Global,
    key: &str,
    value: &Value,
    form: &F,
    reader: &R,
) -> Result<T, JsonFault>
    ensures { Gives result
        (entry_of (F.means form.now) (R.reads reader.now) key.now (view value.now)) }
{
    if fits(form, key) {
        below(alloc, key, reader.read(alloc, value))
    } else {
        at_key(alloc, Wrong::WrongKind, key)
    }
}

/// Null, or a value of another form.
#[derive(Clone, Copy)]
pub struct NullOr<R>(pub R);

impl<T: Drop, R: Reader<T>> Reader<Option<T>> for NullOr<R> {
    ghost reads = { λ form. null_or (R.reads form.0) };

    fn read(&self, alloc: Global, value: &Value) -> Result<Option<T>, JsonFault> {
        match value {
            Value::Null => Ok(None),
            _ => Ok(Some(self.0.read(alloc, value)?)),
        }
    }
}
