//! Rows of sets of values.
use crate::fields::{Field, text_of, truth};
use crate::stop::Stop;
use plain_data::{Duplicate, Same, Word};
use std::alloc::Global;
use variant_values::{ValueSet, VariantKind};

/// The texts of fields.
fn words_of(alloc: Global, texts: &[Field]) -> Result<Vec<Word>, Stop> {
    let mut words = Vec::new(alloc);
    for text in texts {
        words.push(Word::new(alloc, text_of(text)?)?)?;
    }
    Ok(words)
}

fn set_of(alloc: Global, texts: &[Field]) -> Result<ValueSet, Stop> {
    Ok(ValueSet::from_words(words_of(alloc, texts)?))
}

/// Whether a set is the one that its texts make at once, and a copy is the same until a text is put
/// into it.
fn is_kept(alloc: Global, set: &ValueSet, texts: &[Field]) -> Result<bool, Stop> {
    let mut copy = set.duplicate(alloc)?;
    let is_copy = copy.same(set);
    copy.insert(Word::new(alloc, "none of the texts")?)?;
    Ok(is_copy && !copy.same(set) && set_of(alloc, texts)?.same(set))
}

/// Puts a text into a set: whether it is new, and how many texts there are then.
fn push_insertion(
    alloc: Global,
    shown: &mut String,
    set: &mut ValueSet,
    text: &str,
) -> Result<(), Stop> {
    let was_there = set.contains(text);
    let is_new = set.insert(Word::new(alloc, text)?)?;
    if was_there == is_new || set.is_empty() || !set.contains(text) {
        return Err(Stop::TwoAnswers);
    }
    let sign = if is_new { '+' } else { '=' };
    Ok(write!(shown, "{sign}{} ", set.len())?)
}

/// For each text that is put in what comes of it, and then the texts of the set.
fn insert(alloc: Global, texts: &[Field]) -> Result<String, Stop> {
    let mut set = ValueSet::new(alloc);
    let mut shown = String::new(alloc);
    for text in texts {
        push_insertion(alloc, &mut shown, &mut set, text_of(text)?)?;
    }
    if set.is_empty() != texts.is_empty() || !is_kept(alloc, &set, texts)? {
        return Err(Stop::TwoAnswers);
    }
    shown.push_str("set")?;
    for value in set.values() {
        write!(&mut shown, " {:?}", value.as_str())?;
    }
    Ok(shown)
}

/// Whether the first has all of the second, and the second all of the first.
fn pair(alloc: Global, a: &ValueSet, b: &ValueSet) -> Result<String, Stop> {
    let (there, back) = (a.contains_all(b), b.contains_all(a));
    let same = there && back;
    if a.equals(b) != same || b.equals(a) != same || a.same(b) != same {
        return Err(Stop::TwoAnswers);
    }
    Ok(format!(in alloc; "{there} {back}")?)
}

fn kind_of(name: &Field) -> Result<VariantKind, Stop> {
    match text_of(name)? {
        "Bool" => Ok(VariantKind::Bool),
        "Single" => Ok(VariantKind::Single),
        "Multi" => Ok(VariantKind::Multi),
        _ => Err(Stop::NoRow),
    }
}

/// Whether two kinds are the same, and so is a copy of the first.
fn kinds(alloc: Global, a: VariantKind, b: VariantKind) -> Result<String, Stop> {
    let is_same = a.same(&b);
    if b.same(&a) != is_same || a.duplicate(alloc)?.same(&b) != is_same {
        return Err(Stop::TwoAnswers);
    }
    truth(alloc, is_same)
}

/// Answers of sets: the first texts stand before a field `/`, and those of the set behind it.
fn answer_of_sets(alloc: Global, name: &str, args: &[Field]) -> Result<String, Stop> {
    let Some(at) = args
        .iter()
        .position(|field| field.as_slice() == b"/".as_slice())
    else {
        return Err(Stop::NoRow);
    };
    let set = set_of(alloc, &args[at + 1..])?;
    match (name, &args[..at]) {
        ("has", [text]) => truth(alloc, set.contains(text_of(text)?)),
        ("pair", texts) => pair(alloc, &set_of(alloc, texts)?, &set),
        _ => Err(Stop::NoRow),
    }
}

pub(crate) fn answer(alloc: Global, name: &str, args: &[Field]) -> Result<String, Stop> {
    match (name, args) {
        ("kinds", [a, b]) => kinds(alloc, kind_of(a)?, kind_of(b)?),
        ("insert", texts) => insert(alloc, texts),
        _ => answer_of_sets(alloc, name, args),
    }
}
