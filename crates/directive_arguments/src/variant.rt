//! Variants: their kinds, values and defaults.

ghost use Rattle.std.specs.Prelude.{◌≡◌, ◌==◌, ◌∷◌, [], map, codes, IfOk};
ghost use Rattle.std.specs.List.{filter_map, slice_split};
ghost use Rattle.spec_grammar.specs.Meaning.{truth};
ghost use Rattle.std.specs.Option.{option_map};
ghost use Rattle.std.specs.Str.{str_eq_ignore_ascii_case};
ghost use Rattle.variant_values.specs.Texts.{with_text, with_texts};
ghost use Rattle.recipe_data.specs.Right.{has_all};
ghost use Rattle.directive_arguments.specs.Keywords.{scalar_text, truth_text};
ghost use Rattle.directive_arguments.specs.Variants.{switch_text, switch, bool_shape, variant_kind_of, scalar_texts, element_text, cut_texts, default_texts, is_right_default, valued_shape, shape_by, shape_with};

use crate::choice::{scalar_text, truth};
use plain_data::Word;
use recipe_values::{Element, Scalar, Value};
use std::alloc::{AllocError, Global};
use variant_values::{ValueSet, VariantKind};

/// What a variant is, besides its name.
#[derive(Debug, Drop)]
pub struct VariantShape {
    pub kind: VariantKind,
    pub values: ValueSet,
    pub default: ValueSet,
}

/// Whether two texts are the same but for the case of letters.
fn is_in_any_case(text: &str, wanted: &str) -> bool
    ensures { result ≡ str_eq_ignore_ascii_case text.now wanted.now }
{
    text.eq_ignore_ascii_case(wanted)
}

/// `true` or `false` in any case of letters.
fn switch_text(text: &str) -> Option<bool>
    ensures { result ≡ switch_text text.now }
{
    if is_in_any_case(text, "true") {
        Some(true)
    } else if is_in_any_case(text, "false") {
        Some(false)
    } else {
        None
    }
}

/// `True`, `False`, or these as texts in any case.
fn switch(value: &Value) -> Option<bool>
    ensures { result ≡ switch value.now }
{
    match value {
        Value::One(Scalar::Truth(on)) => Some(*on),
        Value::One(Scalar::Text(word)) => switch_text(word.as_str()),
        _ => None,
    }
}

/// The set with a value.
fn with_value(alloc: Global, mut set: ValueSet, text: &str) -> Result<ValueSet, AllocError>
    ensures { IfOk result (λ new. new ≡ with_text set text.now) }
{
    set.insert(Word::new(alloc, text)?)?;
    Ok(set)
}

fn both(alloc: Global) -> Result<ValueSet, AllocError>
    ensures { IfOk result (λ set. set ≡ codes "false" ∷ codes "true" ∷ []) }
{
    let one = with_value(alloc, ValueSet::new(alloc), "false")?;
    with_value(alloc, one, "true")
}

fn only(alloc: Global, on: bool) -> Result<ValueSet, AllocError>
    ensures { IfOk result (λ set. set ≡ truth_text on ∷ []) }
{
    if on {
        with_value(alloc, ValueSet::new(alloc), "true")
    } else {
        with_value(alloc, ValueSet::new(alloc), "false")
    }
}

fn bool_shape(alloc: Global, on: bool) -> Result<VariantShape, AllocError>
    ensures { IfOk result (λ shape. shape ≡ bool_shape on) }
{
    Ok(VariantShape {
        kind: VariantKind::Bool,
        values: both(alloc)?,
        default: only(alloc, on)?,
    })
}

fn kind_of(multi: bool) -> VariantKind
    ensures { result ≡ variant_kind_of multi }
{
    if multi {
        VariantKind::Multi
    } else {
        VariantKind::Single
    }
}

fn scalar_texts(alloc: Global, scalar: &Scalar) -> Result<Vec<Word>, AllocError>
    ensures { IfOk result (λ texts. texts.items ≡ scalar_texts scalar.now) }
{
    let mut texts = Vec::new(alloc);
    if let Some(word) = scalar_text(alloc, scalar)? {
        texts.push(word)?;
    }
    Ok(texts)
}

/// The texts of a tuple or list; what has none is left out.
fn element_texts(alloc: Global, elements: &[Element]) -> Result<Vec<Word>, AllocError>
    ensures { IfOk result (λ texts. texts.items ≡ filter_map element_text elements.now) }
{
    let mut texts = Vec::new(alloc);
    for element in elements {
        if let Some(word) = scalar_text(alloc, &element.scalar)? {
            texts.push(word)?;
        }
    }
    Ok(texts)
}

/// The pieces of a text between its commas.
fn pieces<'a>(alloc: Global, text: &'a str) -> Result<Vec<&'a str>, AllocError>
    ensures { IfOk result (λ found. map (λ piece. piece.now) found.items
        ≡ slice_split (λ b. b == 44) text.now) }
{
    text.split(',').collect(alloc)
}

fn truths(alloc: Global, pieces: &Vec<&str>) -> Result<Vec<Word>, AllocError>
    ensures { IfOk result (λ texts. texts.items ≡ map (λ piece. truth piece.now) pieces.now.items) }
{
    let mut texts = Vec::new(alloc);
    for piece in pieces {
        texts.push(truth(alloc, piece)?)?;
    }
    Ok(texts)
}

fn cut_texts(alloc: Global, text: &str) -> Result<Vec<Word>, AllocError>
    ensures { IfOk result (λ texts. texts.items ≡ cut_texts text.now) }
{
    let cut = pieces(alloc, text)?;
    let texts = truths(alloc, &cut)?;
    Ok(texts)
}

fn default_texts(alloc: Global, multi: bool, value: &Value) -> Result<Vec<Word>, AllocError>
    ensures { IfOk result (λ texts. texts.items ≡ default_texts multi value.now) }
{
    match value {
        Value::One(Scalar::Text(word)) if multi => cut_texts(alloc, word.as_str()),
        Value::One(scalar) => scalar_texts(alloc, scalar),
        Value::Many(elements) => element_texts(alloc, elements.as_slice()),
    }
}

fn has_all(values: &ValueSet, texts: &ValueSet) -> bool
    ensures { result ≡ has_all values.now texts.now }
{
    values.contains_all(texts)
}

/// One value at least, no other than the allowed ones, and one alone unless `multi`.
fn is_right_default(multi: bool, values: &ValueSet, default: &ValueSet) -> bool
    ensures { result ≡ is_right_default multi values.now default.now }
{
    default.len() > 0 && (multi || default.len() < 2) && has_all(values, default)
}

/// The shape of a variant with values, where its default is right.
fn valued_shape(multi: bool, values: ValueSet, default: ValueSet) -> Option<VariantShape>
    ensures { result ≡ valued_shape multi values default }
{
    if !is_right_default(multi, &values, &default) {
        return None;
    }
    Some(VariantShape {
        kind: kind_of(multi),
        values,
        default,
    })
}

fn without_values(alloc: Global, value: &Value) -> Result<Option<VariantShape>, AllocError>
    ensures { IfOk result (λ shape. shape ≡ option_map bool_shape (switch value.now)) }
{
    match switch(value) {
        None => Ok(None),
        Some(on) => Ok(Some(bool_shape(alloc, on)?)),
    }
}

fn with_values(
    alloc: Global,
    multi: bool,
    values: ValueSet,
    value: &Value,
) -> Result<Option<VariantShape>, AllocError>
    ensures { IfOk result (λ shape. shape ≡ valued_shape multi values
        (with_texts [] (default_texts multi value.now))) }
{
    let texts = default_texts(alloc, multi, value)?;
    Ok(valued_shape(multi, values, ValueSet::from_words(texts)))
}

/// What the keywords make; none where the default is missing, empty, not allowed, or more than one without `multi`.
pub fn shape_with(
    alloc: Global,
    default: &Option<Value>,
    multi: bool,
    values: Option<ValueSet>,
) -> Result<Option<VariantShape>, AllocError>
    ensures { IfOk result (λ shape. shape ≡ shape_with default.now multi values) }
{
    match (default, values) {
        (None, _) => Ok(None),
        (Some(value), None) => without_values(alloc, value),
        (Some(value), Some(values)) => with_values(alloc, multi, values, value),
    }
}
