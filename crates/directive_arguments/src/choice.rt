//! `values` and `default`: the values that a variant may have.

ghost use Rattle.std.specs.Prelude.{◌≡◌, [], IfOk};
ghost use Rattle.variant_values.specs.Texts.{with_texts};
ghost use Rattle.spec_grammar.specs.Meaning.{truth};
ghost use Rattle.directive_arguments.specs.Results.{Is, Gives, steps, then_do};
ghost use Rattle.directive_arguments.specs.Keywords.{scalar_text, add_text, add_allowed, element_allowed, allowed_by, value_texts_in, is_default, wrong_element, wrong_default, default_value_in};

use crate::ArgumentFault;
use crate::table::is;
use crate::text::is_value;
use plain_data::Word;
use recipe_values::{Element, PlacedValue, Scalar, Value};
use std::alloc::{AllocError, Global};
use variant_values::ValueSet;

/// A text, in which `True` and `False` count as `true` and `false`.
pub(crate) fn truth(alloc: Global, text: &str) -> Result<Word, AllocError>
    ensures { IfOk result (λ word. word ≡ truth text.now) }
{
    if is(text.as_bytes(), b"True") {
        Word::new(alloc, "true")
    } else if is(text.as_bytes(), b"False") {
        Word::new(alloc, "false")
    } else {
        Word::new(alloc, text)
    }
}

/// The text of a value that a variant may have.
pub(crate) fn scalar_text(alloc: Global, scalar: &Scalar) -> Result<Option<Word>, AllocError>
    ensures { IfOk result (λ text. text ≡ scalar_text scalar.now) }
{
    match scalar {
        Scalar::Text(word) => Ok(Some(truth(alloc, word.as_str())?)),
        Scalar::Number(word) => Ok(Some(Word::new(alloc, word.as_str())?)),
        Scalar::Truth(true) => Ok(Some(Word::new(alloc, "true")?)),
        Scalar::Truth(false) => Ok(Some(Word::new(alloc, "false")?)),
        _ => Ok(None),
    }
}

/// Adds the text of a value, or refuses what is no text or no value.
fn add_text(place: u64, text: Option<Word>, texts: &mut Vec<Word>) -> Result<(), ArgumentFault>
    ensures { Gives result texts.new.items (add_text place text texts.old.items) }
{
    match text {
        Some(word) if is_value(word.as_str().as_bytes()) => {
            texts.push(word)?;
            Ok(())
        }
        _ => Err(ArgumentFault::BadArgument(place)),
    }
}

fn add_allowed(
    alloc: Global,
    place: u64,
    scalar: &Scalar,
    texts: &mut Vec<Word>,
) -> Result<(), ArgumentFault>
    ensures { Gives result texts.new.items (add_allowed place scalar.now texts.old.items) }
{
    add_text(place, scalar_text(alloc, scalar)?, texts)
}

/// Adds the texts of a tuple or list, each of which must be a value.
fn add_all_allowed(
    alloc: Global,
    elements: &[Element],
    texts: &mut Vec<Word>,
) -> Result<(), ArgumentFault>
    ensures { Gives result texts.new.items (steps element_allowed elements.now texts.old.items) }
{
    for element in elements {
        match add_allowed(alloc, element.place, &element.scalar, texts) {
            Ok(()) => {}
            Err(fault) => return Err(fault),
        }
    }
    Ok(())
}

fn allowed_by(
    alloc: Global,
    reading: &PlacedValue,
    texts: &mut Vec<Word>,
) -> Result<(), ArgumentFault>
    requires { texts.old.items ≡ [] }
    ensures { Gives result texts.new.items (allowed_by reading.now.place reading.now.value) }
{
    match &reading.value {
        Value::One(scalar) => add_allowed(alloc, reading.place, scalar, texts),
        Value::Many(elements) => add_all_allowed(alloc, elements.as_slice(), texts),
    }
}

/// Values that a variant may have, or one.
pub(crate) fn values_in(alloc: Global, reading: &PlacedValue) -> Result<ValueSet, ArgumentFault>
    ensures { Is result (value_texts_in reading.now) }
{
    let mut texts = Vec::new(alloc);
    allowed_by(alloc, reading, &mut texts)?;
    Ok(ValueSet::from_words(texts))
}

fn is_default(scalar: &Scalar) -> bool
    ensures { result ≡ is_default scalar.now }
{
    !matches!(scalar, Scalar::Nothing | Scalar::Nested)
}

/// The place of the first element that is no default.
fn wrong_element(elements: &[Element]) -> Option<u64>
    ensures { result ≡ wrong_element elements.now }
{
    for element in elements {
        if !is_default(&element.scalar) {
            return Some(element.place);
        }
    }
    None
}

fn wrong_default(place: u64, value: &Value) -> Option<u64>
    ensures { result ≡ wrong_default place value.now }
{
    match value {
        Value::One(scalar) if is_default(scalar) => None,
        Value::One(_) => Some(place),
        Value::Many(elements) => wrong_element(elements.as_slice()),
    }
}

/// Any value but `None`, and a tuple or list without those and without another one.
pub(crate) fn default_in(reading: PlacedValue) -> Result<Value, ArgumentFault>
    ensures { Is result (default_value_in reading) }
{
    match wrong_default(reading.place, &reading.value) {
        Some(place) => Err(ArgumentFault::BadArgument(place)),
        None => Ok(reading.value),
    }
}
