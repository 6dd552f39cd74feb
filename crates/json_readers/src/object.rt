//! Objects.

ghost use Rattle.std.specs.Prelude.{◌≡◌, List, ℕ, map, option_map};
ghost use Rattle.std.specs.List.{list_any};
ghost use Rattle.std.specs.Str.{bytes_eq};
ghost use Rattle.serde_json.specs.View.{view, members_view};
ghost use Rattle.serde_json.specs.Find.{get_member};
ghost use Rattle.json_readers.specs.Faults.{Gives, seen_as};
ghost use Rattle.json_readers.specs.Objects.{need, may, known, members_of, unless_unknown};
ghost use Rattle.json_readers.specs.Objects.{first_unknown, first_odd, field, none_odd};
ghost use Rattle.json_readers.specs.Objects.{read_needed, read_optional};

use crate::fault::{at_key, at_root, below};
use crate::{JsonFault, Reader, Wrong};
use serde_json::{Map, Value};
use std::alloc::Global;
use std::cmp::Ordering;

/// What stands at a key, which must be there.
#[tactic(auto, using(crate::proofs::Raising::raised))]
pub fn need<T: Drop, R: Reader<T>>(
    alloc: Global,
    members: &Map<String, Value>,
    key: &str,
    reader: &R,
) -> Result<T, JsonFault>
    ensures { Gives result (need (R.reads reader.now) key.now (members_view members.now.entries)) }
{
    below(alloc, key, read_needed(alloc, members, key, reader))
}

fn read_needed<T, R: Reader<T>>(
    alloc: Global,
    members: &Map<String, Value>,
    key: &str,
    reader: &R,
) -> Result<T, JsonFault>
    ensures { Gives result
        (read_needed (R.reads reader.now) (get_member key.now (members_view members.now.entries))) }
{
    match member(members, key) {
        Some(value) => reader.read(alloc, value),
        None => at_root(alloc, Wrong::WrongKind),
    }
}

/// What stands at a key, if it is there.
#[tactic(auto, using(crate::proofs::Raising::raised))]
pub fn may<T: Drop, R: Reader<T>>(
    alloc: Global,
    members: &Map<String, Value>,
    key: &str,
    reader: &R,
) -> Result<Option<T>, JsonFault>
    ensures { Gives result (may (R.reads reader.now) key.now (members_view members.now.entries)) }
{
    below(alloc, key, read_optional(alloc, members, key, reader))
}

fn read_optional<T, R: Reader<T>>(
    alloc: Global,
    members: &Map<String, Value>,
    key: &str,
    reader: &R,
) -> Result<Option<T>, JsonFault>
    ensures { Gives result
        (read_optional (R.reads reader.now)
        (get_member key.now (members_view members.now.entries))) }
{
    match member(members, key) {
        Some(value) => Ok(Some(reader.read(alloc, value)?)),
        None => Ok(None),
    }
}

/// What stands at a key.
pub fn member<'v>(members: &'v Map<String, Value>, key: &str) -> Option<&'v Value>
    ensures { option_map (λ x. view x.now) result
        ≡ get_member key.now (members_view members.now.entries) }
{
    members.get(key)
}

/// The members of an object.
pub fn members_of<'v>(alloc: Global, value: &'v Value) -> Result<&'v Map<String, Value>, JsonFault>
    ensures { Gives (seen_as (λ m. members_view m.now.entries) result)
        (members_of (view value.now)) }
{
    match value {
        Value::Object(members) => Ok(members),
        _ => at_root(alloc, Wrong::WrongKind),
    }
}

// ---- objects whose unknown keys come first

/// The members of an object that has none but these keys.
pub fn known<'v>(
    alloc: Global,
    value: &'v Value,
    keys: &[&str],
) -> Result<&'v Map<String, Value>, JsonFault>
    ensures { Gives (seen_as (λ m. members_view m.now.entries) result)
        (known (map (λ k. k.now) keys.now) (view value.now)) }
{
    let members = members_of(alloc, value)?;
    match first_unknown(members, keys) {
        Some(key) => at_key(alloc, Wrong::UnknownKey, key),
        None => Ok(members),
    }
}

/// The least key that is none of these.
fn first_unknown<'v>(members: &'v Map<String, Value>, keys: &[&str]) -> Option<&'v str>
    ensures { option_map (λ k. k.now) result
        ≡ first_unknown (map (λ k. k.now) keys.now) (members_view members.now.entries) }
{
    for (key, _) in members.iter() {
        if !is_among(key.as_str(), keys) {
            return Some(key.as_str());
        }
    }
    None
}

/// Whether a text is one of some.
fn is_among(text: &str, texts: &[&str]) -> bool
    ensures { result ≡ list_any (bytes_eq text.now) (map (λ k. k.now) texts.now) }
{
    for other in texts {
        if text == *other {
            return true;
        }
    }
    false
}

// ---- objects whose keys go in byte order

/// The first key, in byte order, that is only among these, which ascend, or only in the object.
pub fn first_odd<'v>(members: &'v Map<String, Value>, keys: &[&'v str]) -> Option<&'v str>
    ensures { option_map (λ k. k.now) result
        ≡ first_odd (map (λ k. k.now) keys.now) (members_view members.now.entries) }
{
    let mut place = 0;
    for (key, _) in members.iter() {
        if place == keys.len() {
            return Some(key.as_str());
        }
        let first = keys[place];
        match first.cmp(key.as_str()) {
            Ordering::Less => return Some(first),
            Ordering::Equal => place += 1,
            Ordering::Greater => return Some(key.as_str()),
        }
    }
    keys.get(place).copied()
}

/// What stands at the next key, where none up to it is odd.
pub fn field<T: Drop, R: Reader<T>>(
    alloc: Global,
    members: &Map<String, Value>,
    odd: Option<&str>,
    key: &str,
    reader: &R,
) -> Result<T, JsonFault>
    ensures { Gives result
        (field (R.reads reader.now) (option_map (λ k. k.now) odd.entry) key.now
        (members_view members.now.entries)) }
{
    match odd {
        Some(odd) if odd <= key => at_key(alloc, Wrong::WrongKind, odd),
        _ => need(alloc, members, key, reader),
    }
}

/// No key is odd.
pub fn none_odd(alloc: Global, odd: Option<&str>) -> Result<(), JsonFault>
    ensures { Gives result (none_odd (option_map (λ k. k.now) odd.entry)) }
{
    match odd {
        Some(odd) => at_key(alloc, Wrong::WrongKind, odd),
        None => Ok(()),
    }
}
