//! The values of a variant.

ghost use Rattle.record_reader.specs.Records.{variant_values_at};

use json_readers::{Filled, JsonFault, Reader, SetOf, Text};
use json_texts::Value as ValueText;
use serde_json::Value;
use std::alloc::Global;
use variant_values::ValueSet;

/// A list of values, at least one and none twice. `True` means `true`, and `False` means `false`.
#[derive(Clone, Copy)]
pub struct ValuesForm;

impl Reader<ValueSet> for ValuesForm {
    ghost reads = { λ _. variant_values_at };

    #[tactic(auto, unfolding(crate::specs::Records::variant_values_at))]
    fn read(&self, alloc: Global, value: &Value) -> Result<ValueSet, JsonFault> {
        let form = Filled(SetOf {
            texts: ValueText,
            key: None,
            entries: Text(ValueText),
        });
        let texts = form.read(alloc, value)?;
        Ok(ValueSet::from_words(texts.into_vec()))
    }
}
