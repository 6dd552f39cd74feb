//! What a dependency is needed for.

ghost use Rattle.std.specs.Prelude.{◌≡◌, codes};
ghost use Rattle.std.specs.List.{list_any};
ghost use Rattle.std.specs.Str.{bytes_eq};
ghost use Rattle.record_reader.specs.Texts.{kind_meaning, kinds_by};
ghost use Rattle.record_reader.specs.Records.{kinds_at};

use graph_core::Kinds;
use json_readers::{Filled, JsonFault, Reader, SetOf, Text, TextForm};
use plain_data::Word;
use serde_json::Value;
use std::alloc::Global;

/// `build`, `link` or `run`.
#[derive(Clone, Copy)]
struct KindText;

impl TextForm for KindText {
    ghost means = { λ _. kind_meaning };

    fn meaning<'t>(&self, text: &'t str) -> Option<&'t str> {
        if text == "build" || text == "link" || text == "run" {
            Some(text)
        } else {
            None
        }
    }
}

/// A list of `build`, `link` and `run`, at least one of them and none twice.
#[derive(Clone, Copy)]
pub struct KindsForm;

impl Reader<Kinds> for KindsForm {
    ghost reads = { λ _. kinds_at };

    #[tactic(auto, unfolding(crate::specs::Records::kinds_at))]
    fn read(&self, alloc: Global, value: &Value) -> Result<Kinds, JsonFault> {
        let form = Filled(SetOf {
            texts: KindText,
            key: None,
            entries: Text(KindText),
        });
        let texts = form.read(alloc, value)?;
        Ok(kinds_by(texts.as_slice()))
    }
}

fn kinds_by(texts: &[Word]) -> Kinds
    ensures { result ≡ kinds_by texts.now }
{
    Kinds {
        build: has(texts, "build"),
        link: has(texts, "link"),
        run: has(texts, "run"),
    }
}

fn has(texts: &[Word], text: &str) -> bool
    ensures { result ≡ list_any (bytes_eq text.now) texts.now }
{
    texts.iter().any(|other| text == other.as_str())
}
