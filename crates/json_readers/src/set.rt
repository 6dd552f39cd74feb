//! Lists in which nothing is repeated, as a part of the list's own form.

ghost use Rattle.std.specs.Prelude.{◌≡◌, IfOk, option_map};
ghost use Rattle.serde_json.specs.View.{view, items_view};
ghost use Rattle.json_readers.specs.Faults.{Gives};
ghost use Rattle.json_readers.specs.Sets.{read_as, text_by, texts_by, unrepeated, set_of};
ghost use Rattle.json_readers.specs.Sets.{filled_by};

use crate::fault::at_root;
use crate::list::{first_twice, read_list};
use crate::{JsonFault, Reader, TextForm, Wrong};
use plain_data::{List, Word};
use serde_json::Value;
use std::alloc::{AllocError, Global};

/// A list in which no text stands twice, or none at a key of the entries. Texts count by what they
/// mean by the form. That comes before what is wrong with an entry, and is of the wrong kind at the
/// list.
#[derive(Clone, Copy)]
pub struct SetOf<F, R> {
    pub texts: F,
    pub key: Option<&'static str>,
    pub entries: R,
}

impl<T: Drop, F: TextForm, R: Reader<T>> Reader<List<T>> for SetOf<F, R> {
    ghost reads = { λ set. set_of (F.means set.texts) (option_map (λ k. k.now) set.key) (R.reads set.entries) };

    fn read(&self, alloc: Global, value: &Value) -> Result<List<T>, JsonFault> {
        match value {
            Value::Array(items) => unrepeated(alloc, &self.texts, self.key, items.as_slice())?,
            _ => return at_root(alloc, Wrong::WrongKind),
        }
        read_list(alloc, value, &self.entries)
    }
}

fn unrepeated<F: TextForm>(
    alloc: Global,
    form: &F,
    key: Option<&str>,
    items: &[Value],
) -> Result<(), JsonFault>
    ensures { Gives result
        (unrepeated (F.means form.now) (option_map (λ k. k.now) key.entry) (items_view items.now)) }
{
    match first_twice(alloc, texts_by(alloc, form, key, items)?)? {
        Some(_) => at_root(alloc, Wrong::WrongKind),
        None => Ok(()),
    }
}

/// The texts of the items that have one, each as the form reads it.
fn texts_by<F: TextForm>(
    alloc: Global,
    form: &F,
    key: Option<&str>,
    items: &[Value],
) -> Result<Vec<Word>, AllocError>
    ensures { IfOk result (λ texts. texts.items
        ≡ texts_by (F.means form.now) (option_map (λ k. k.now) key.entry) (items_view items.now)) }
{
    let mut texts = Vec::new(alloc);
    for item in items {
        if let Some(text) = text_by(key, item) {
            texts.push(Word::new(alloc, read_as(form, text))?)?;
        }
    }
    Ok(texts)
}

fn read_as<'t, F: TextForm>(form: &F, text: &'t str) -> &'t str
    ensures { result.now ≡ read_as (F.means form.now text.now) text.now }
{
    form.meaning(text).unwrap_or(text)
}

fn text_by<'v>(key: Option<&str>, value: &'v Value) -> Option<&'v str>
    ensures { option_map (λ s. s.now) result
        ≡ text_by (option_map (λ k. k.now) key.entry) (view value.now) }
{
    match key {
        Some(key) => value.get(key)?.as_str(),
        None => value.as_str(),
    }
}

/// A list that is not empty.
#[derive(Clone, Copy)]
pub struct Filled<R>(pub R);

impl<T: Drop, R: Reader<List<T>>> Reader<List<T>> for Filled<R> {
    ghost reads = { λ form. filled_by (R.reads form.0) };

    fn read(&self, alloc: Global, value: &Value) -> Result<List<T>, JsonFault> {
        let entries = self.0.read(alloc, value)?;
        if entries.is_empty() {
            return at_root(alloc, Wrong::WrongKind);
        }
        Ok(entries)
    }
}
