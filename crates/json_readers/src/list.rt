//! Lists.

ghost use Rattle.std.specs.Prelude.{◌≡◌, [], decimal, IfOk};
ghost use Rattle.serde_json.specs.View.{view, items_view};
ghost use Rattle.json_readers.specs.Faults.{Gives, below};
ghost use Rattle.json_readers.specs.Lists.{items_from, list_of, not_empty, distinct, twice_after};

use crate::fault::{at_key, at_root, below_place};
use crate::{JsonFault, Reader, Wrong};
use plain_data::List;
use serde_json::Value;
use std::alloc::{AllocError, Global};
use std::collections::BTreeSet;

/// A list of values of one form.
#[derive(Clone, Copy)]
pub struct ListOf<R>(pub R);

impl<T: Drop, R: Reader<T>> Reader<List<T>> for ListOf<R> {
    ghost reads = { λ list. list_of (R.reads list.0) };

    fn read(&self, alloc: Global, value: &Value) -> Result<List<T>, JsonFault> {
        read_list(alloc, value, &self.0)
    }
}

pub(crate) fn read_list<T: Drop, R: Reader<T>>(
    alloc: Global,
    value: &Value,
    reader: &R,
) -> Result<List<T>, JsonFault>
    ensures { Gives result (list_of (R.reads reader.now) (view value.now)) }
{
    match value {
        Value::Array(items) => read_items(alloc, items.as_slice(), reader),
        _ => at_root(alloc, Wrong::WrongKind),
    }
}

fn read_items<T: Drop, R: Reader<T>>(
    alloc: Global,
    items: &[Value],
    reader: &R,
) -> Result<List<T>, JsonFault>
    ensures { Gives result (items_from (R.reads reader.now) 0 (items_view items.now)) }
{
    let mut read = List::new(alloc);
    for (i, item) in items.iter().enumerate() {
        read.push(read_item(alloc, i, item, reader)?)?;
    }
    Ok(read)
}

#[tactic(auto, using(crate::proofs::Raising::raised))]
fn read_item<T: Drop, R: Reader<T>>(
    alloc: Global,
    place: usize,
    item: &Value,
    reader: &R,
) -> Result<T, JsonFault>
    ensures { Gives result (below (decimal place) (R.reads reader.now (view item.now))) }
{
    below_place(alloc, place, reader.read(alloc, item))
}

/// At least one entry.
pub fn not_empty<T>(alloc: Global, entries: &List<T>) -> Result<(), JsonFault>
    ensures { Gives result (not_empty entries.now) }
{
    if entries.is_empty() {
        return at_root(alloc, Wrong::Empty);
    }
    Ok(())
}

/// No key equals one before it. Takes n log n comparisons.
pub fn distinct<K: Ord + Drop>(alloc: Global, keys: Vec<K>) -> Result<(), JsonFault>
    ensures { Gives result (distinct K.cmp keys.items) }
{
    match first_twice(alloc, keys)? {
        Some(place) => {
            let place = format!(in alloc; "{place}")?;
            at_key(alloc, Wrong::TwiceNamed, place.as_str())
        }
        None => Ok(()),
    }
}

/// The place of the first key that one before it equals.
pub(crate) fn first_twice<K: Ord + Drop>(
    alloc: Global,
    keys: Vec<K>,
) -> Result<Option<usize>, AllocError>
    ensures { IfOk result (λ place. place ≡ twice_after K.cmp [] 0 keys.items) }
{
    let mut seen = BTreeSet::new(alloc);
    let mut place = 0;
    for key in keys {
        if !seen.insert(key)? {
            return Ok(Some(place));
        }
        place += 1;
    }
    Ok(None)
}
