//! Values without parts: texts, whole numbers, truth values.

ghost use Rattle.std.specs.Prelude.{◌≡◌, Some, option_map, option_and_then};
ghost use Rattle.serde_json.specs.View.{view};
ghost use Rattle.serde_json.specs.Find.{as_str};
ghost use Rattle.json_readers.specs.Faults.{Gives};
ghost use Rattle.json_readers.specs.Texts.{text_of, whole_number, truth_value};

use crate::fault::at_root;
use crate::{JsonFault, Reader, Wrong};
use plain_data::Word;
use serde_json::Value;
use std::alloc::Global;

/// A form of texts: which texts have it, and what each of them means.
pub trait TextForm {
    ghost use Rattle.std.specs.Prelude.{List, ℕ, Option};

    ghost means: { Self → List ℕ → Option (List ℕ) };

    /// What a text of the form means, mostly itself; `None` for any other text.
    fn meaning<'t>(&self, text: &'t str) -> Option<&'t str>
        ensures { option_map (λ t. t.now) result ≡ means self.now text.now };
}

/// Any text.
#[derive(Clone, Copy)]
pub struct AnyText;

impl TextForm for AnyText {
    ghost means = { λ _ text. Some text };

    fn meaning<'t>(&self, text: &'t str) -> Option<&'t str> {
        Some(text)
    }
}

/// A text of a form.
#[derive(Clone, Copy)]
pub struct Text<F>(pub F);

impl<F: TextForm> Reader<Word> for Text<F> {
    ghost reads = { λ text. text_of (F.means text.0) };

    fn read(&self, alloc: Global, value: &Value) -> Result<Word, JsonFault> {
        match text_in(&self.0, value) {
            Some(text) => Ok(Word::new(alloc, text)?),
            None => at_root(alloc, Wrong::WrongKind),
        }
    }
}

fn text_in<'v, F: TextForm>(form: &F, value: &'v Value) -> Option<&'v str>
    ensures { option_map (λ t. t.now) result
        ≡ option_and_then (F.means form.now) (as_str (view value.now)) }
{
    form.meaning(value.as_str()?)
}

/// A whole number from 0 to 2^64 - 1. `-0`, `1.0` and `1e3` are none.
#[derive(Clone, Copy)]
pub struct WholeNumber;

impl Reader<u64> for WholeNumber {
    ghost reads = { λ _. whole_number };

    fn read(&self, alloc: Global, value: &Value) -> Result<u64, JsonFault> {
        match value.as_u64() {
            Some(number) => Ok(number),
            None => at_root(alloc, Wrong::WrongKind),
        }
    }
}

/// `true` or `false`.
#[derive(Clone, Copy)]
pub struct TruthValue;

impl Reader<bool> for TruthValue {
    ghost reads = { λ _. truth_value };

    fn read(&self, alloc: Global, value: &Value) -> Result<bool, JsonFault> {
        match value.as_bool() {
            Some(truth) => Ok(truth),
            None => at_root(alloc, Wrong::WrongKind),
        }
    }
}
