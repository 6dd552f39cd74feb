//! Values as sets of texts, and as targets.

ghost use Rattle.std.specs.Prelude.{◌≡◌, ◌<◌, length, MatchOption, [], ◌∷◌, map, List, ℕ, IfOk};
ghost use Rattle.std.specs.List.{before_first, after_first, position_or_len};
ghost use Rattle.spec_grammar.specs.Keys.{is_colon};
ghost use Rattle.spec_grammar.specs.Meaning.{truth, put_all, end_of, target_of, is_dash, mark_value};

use crate::TargetItem;
use crate::item::Mark;
use plain_data::{List, Word};
use std::alloc::{AllocError, Global};
use variant_values::ValueSet;

/// The word of a value, where `True` and `False` count as `true` and `false`.
pub(crate) fn truth(alloc: Global, text: &str) -> Result<Word, AllocError>
    ensures { IfOk result (λ word. word ≡ truth text.now) }
{
    if text == "True" {
        Word::new(alloc, "true")
    } else if text == "False" {
        Word::new(alloc, "false")
    } else {
        Word::new(alloc, text)
    }
}

/// The set of a variant's values.
pub(crate) fn value_set(alloc: Global, values: &[Word]) -> Result<ValueSet, AllocError>
    ensures { IfOk result (λ set. set ≡ put_all [] values.now) }
{
    let mut words = Vec::new(alloc);
    for value in values {
        words.push(truth(alloc, value.as_str())?)?;
    }
    Ok(ValueSet::from_words(words))
}

/// The set of the one value that a mark gives a variant.
pub(crate) fn mark_set(alloc: Global, mark: Mark) -> Result<ValueSet, AllocError>
    ensures { IfOk result (λ set. set ≡ mark_value mark ∷ []) }
{
    let text = match mark {
        Mark::Plus => "true",
        Mark::Tilde | Mark::Minus => "false",
    };
    let mut set = ValueSet::new(alloc);
    set.insert(Word::new(alloc, text)?)?;
    Ok(set)
}

/// The end of a range of targets.
fn end_of(alloc: Global, text: &str) -> Result<Option<Word>, AllocError>
    ensures { IfOk result (λ end. end ≡ end_of text.now) }
{
    if text.is_empty() {
        return Ok(None);
    }
    Ok(Some(Word::new(alloc, text)?))
}

/// What stands before the first `:`, and what behind it.
fn cut_colon(text: &str) -> Option<(&str, &str)>
    ensures { MatchOption result (position_or_len is_colon text.now ≡ length text.now)
        (λ cut. (position_or_len is_colon text.now < length text.now)
        × (cut.0.now ≡ before_first is_colon text.now)
        × (cut.1.now ≡ after_first is_colon text.now)) }
{
    text.split_once(':')
}

/// An item of `target=`.
pub(crate) fn target_of(alloc: Global, text: &str) -> Result<TargetItem, AllocError>
    ensures { IfOk result (λ target. target ≡ target_of text.now) }
{
    match cut_colon(text) {
        Some((low, high)) => Ok(TargetItem {
            low: end_of(alloc, low)?,
            high: end_of(alloc, high)?,
            range: true,
        }),
        None => Ok(TargetItem {
            low: Some(truth(alloc, text)?),
            high: None,
            range: false,
        }),
    }
}

/// The items of `target=`.
pub(crate) fn targets_of(alloc: Global, values: &[Word]) -> Result<List<TargetItem>, AllocError>
    ensures { IfOk result (λ targets. targets ≡ map target_of values.now) }
{
    let mut targets = List::from_vec(Vec::with_capacity(alloc, values.len())?);
    for value in values {
        targets.push(target_of(alloc, value.as_str())?)?;
    }
    Ok(targets)
}

/// What stands before the first `-`, and what behind it.
pub(crate) fn cut_dash(text: &str) -> (&str, &str)
    ensures before { result.0.now ≡ before_first is_dash text.now }
    ensures after { result.1.now ≡ after_first is_dash text.now }
{
    match text.split_once('-') {
        Some((before, after)) => (before, after),
        None => (text, ""),
    }
}
