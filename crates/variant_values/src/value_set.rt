// Sets of texts.
ghost use Rattle.std.specs.Prelude.{◌≡◌, ◌↔◌, ℕ, List, [], length, All, Contains, IfOk, IfErr, OnOk, OnErr, IsTrue};
ghost use Rattle.variant_values.specs.Texts.{Texts, AddsText, HaveSameTexts, IsGapFor, IsInByteOrder, with_text, with_texts};

use plain_data::{Duplicate, Same, Word};
use std::alloc::{AllocError, Global};
use std::marker::Model;

/// A set of texts, seen as the list of them in byte order, each once.
#[derive(Debug, Drop)]
pub struct ValueSet {
    items: Vec<Word>,
}

impl Model for ValueSet {
    ghost use Rattle.std.specs.Prelude.{ℕ, List};
    ghost use Rattle.variant_values.specs.Texts.{IsInByteOrder};

    ghost Value = { List (List ℕ) };

    ghost view = { λ set. set.items.items };

    ghost invariant = { λ set. IsInByteOrder set.items.items };
}

/// What holds of all sets: two with the same texts are equal, and one more text, which `insert`
/// adds, stands at its place among the others.
pub fn laws()
    ensures same { (a b : Texts) → IsInByteOrder a → IsInByteOrder b → HaveSameTexts a b → a ≡ b }
    ensures adds { (a : Texts) (text : List ℕ) → AddsText a text (with_text a text) }
    ensures ordered { (a : Texts) (text : List ℕ) → IsInByteOrder a
        → IsInByteOrder (with_text a text) }
{}

impl ValueSet {
    /// The empty set.
    pub fn new(alloc: Global) -> ValueSet
        ensures { result ≡ [] }
    {
        ValueSet {
            items: Vec::new(alloc),
        }
    }

    /// The set of some texts, in whatever order and however often they stand there.
    ///
    /// Takes n log n comparisons for n texts, and no memory; room beyond the texts is given back.
    pub fn from_words(mut words: Vec<Word>) -> ValueSet
        ensures texts { HaveSameTexts result words.items }
        ensures ordered { IsInByteOrder result }

        // The same as one list, for callers that say what a record is after many insertions.
        ensures set { result ≡ with_texts [] words.items }
    {
        words.sort_unstable();
        words.dedup();
        words.shrink_to_fit();
        ValueSet { items: words }
    }

    /// Adds a text; `true` exactly where it is new.
    ///
    /// A set that has the text stays as it was. Fails only for want of memory, and the set then
    /// stays as it was too.
    pub fn insert(&mut self, value: Word) -> Result<bool, AllocError>
        ensures new { IfOk result (λ is_new. IsTrue is_new ↔ ¬ Contains self.old value) }
        ensures texts { OnOk result (AddsText self.old value self.new) }
        ensures ordered { IsInByteOrder self.new }
        ensures known { Contains self.old value → self.new ≡ self.old }
        ensures err { OnErr result (self.new ≡ self.old) }

        // The same as one list, for callers that say what a record is after many insertions.
        ensures set { OnOk result (self.new ≡ with_text self.old value) }
    {
        match self.search(value.as_str()) {
            Ok(_) => Ok(false),
            Err(place) => {
                self.items.insert(place, value)?;
                Ok(true)
            }
        }
    }

    /// Whether the set has the text.
    pub fn contains(&self, value: &str) -> bool
        ensures { IsTrue result ↔ Contains self.now value.now }
    {
        self.search(value).is_ok()
    }

    /// Whether the set has every text of another.
    pub fn contains_all(&self, other: &ValueSet) -> bool
        ensures { IsTrue result ↔ All (Contains self.now) other.now }
    {
        for value in other.values() {
            if !self.contains(value.as_str()) {
                return false;
            }
        }
        true
    }

    /// Whether two sets have the same texts.
    pub fn equals(&self, other: &ValueSet) -> bool
        ensures { IsTrue result ↔ (self.now ≡ other.now) }
    {
        self.items == other.items
    }

    /// How many texts the set has.
    pub fn len(&self) -> u64
        ensures { result ≡ length self.now }
    {
        self.items.len() as u64
    }

    /// Whether the set has no text.
    pub fn is_empty(&self) -> bool
        ensures { IsTrue result ↔ (self.now ≡ []) }
    {
        self.items.is_empty()
    }

    /// The texts in byte order, each once.
    pub fn values(&self) -> &[Word]
        ensures texts { result.now ≡ self.now }
        ensures ordered { IsInByteOrder self.now }
    {
        self.items.as_slice()
    }

    // Where a text stands, or else where it would stand.
    fn search(&self, text: &str) -> Result<usize, usize>
        ensures found { OnOk result (Contains self.now text.now) }
        ensures absent { IfErr result (IsGapFor self.now text.now) }
        ensures ordered { IsInByteOrder self.now }
    {
        self.items.binary_search_by(|item| item.as_str().cmp(text))
    }
}

impl Duplicate for ValueSet {
    fn duplicate(&self, _: Global) -> Result<ValueSet, AllocError> {
        Ok(ValueSet {
            items: self.items.clone()?,
        })
    }
}

impl Same for ValueSet {
    fn same(&self, other: &ValueSet) -> bool {
        self.equals(other)
    }
}
