//! Rows of sets of versions.
use crate::fields::{Field, text_of, truth};
use crate::fronts;
use crate::stop::Stop;
use plain_data::{Duplicate, Same};
use std::alloc::Global;
use version_order::{Version, VersionSet, VersionSetFault};

/// Whether a copy of a set is the same, and the set is written as the text, also behind another.
fn is_kept(alloc: Global, set: &VersionSet, text: &[u8]) -> Result<bool, Stop> {
    let mut out = Vec::new(alloc);
    set.write(&mut out)?;
    set.write(&mut out)?;
    let (first, second) = out.split_at(out.len() / 2);
    Ok(first == text && second == text && set.duplicate(alloc)?.same(set))
}

/// How many items a set has, and its single version.
fn shown(alloc: Global, set: &VersionSet) -> Result<String, Stop> {
    let count = set.items().len();
    let single = match set.single() {
        Some(version) => version.text(),
        None => "-",
    };
    Ok(format!(in alloc; "{count} {single}")?)
}

/// How many items a set has and its single version, where both readers give it and it is kept.
fn read_set(
    alloc: Global,
    set: &VersionSet,
    other: &VersionSet,
    text: &[u8],
) -> Result<String, Stop> {
    if !set.same(other) || !is_kept(alloc, set, text)? {
        return Err(Stop::TwoAnswers);
    }
    shown(alloc, set)
}

/// A fault that both readers give.
fn fault_text(
    alloc: Global,
    fault: VersionSetFault,
    other: VersionSetFault,
) -> Result<String, Stop> {
    if fault != other {
        return Err(Stop::TwoAnswers);
    }
    Ok(format!(in alloc; "{fault:?}")?)
}

/// What the two readers give.
fn read(alloc: Global, text: &str) -> Result<String, Stop> {
    let bytes = text.as_bytes();
    match (
        VersionSet::read(alloc, text),
        VersionSet::from_bytes(alloc, bytes),
    ) {
        (Ok(set), Ok(other)) => read_set(alloc, &set, &other, bytes),
        (Err(fault), Err(other)) => fault_text(alloc, fault, other),
        _ => Err(Stop::TwoAnswers),
    }
}

fn set_of(alloc: Global, text: &Field) -> Result<VersionSet, Stop> {
    match VersionSet::from_bytes(alloc, text.as_slice()) {
        Ok(set) => Ok(set),
        Err(_) => Err(Stop::NoRow),
    }
}

fn contains(alloc: Global, set: &VersionSet, version: &Field) -> Result<String, Stop> {
    match Version::from_bytes(alloc, version.as_slice()) {
        Ok(version) => truth(alloc, set.contains(&version)),
        Err(_) => Err(Stop::NoRow),
    }
}

/// An answer that is the same both ways.
fn both(alloc: Global, there: bool, back: bool) -> Result<String, Stop> {
    if there != back {
        return Err(Stop::TwoAnswers);
    }
    truth(alloc, there)
}

pub(crate) fn answer(alloc: Global, name: &str, args: &[Field]) -> Result<String, Stop> {
    match (name, args) {
        ("read", [text]) => read(alloc, text_of(text)?),
        ("fronts", [length]) => fronts::answer(alloc, text_of(length)?),
        ("contains", [a, version]) => contains(alloc, &set_of(alloc, a)?, version),
        ("overlaps", [a, b]) => {
            let (a, b) = (set_of(alloc, a)?, set_of(alloc, b)?);
            both(alloc, a.overlaps(&b), b.overlaps(&a))
        }
        ("same", [a, b]) => {
            let (a, b) = (set_of(alloc, a)?, set_of(alloc, b)?);
            both(alloc, a.same(&b), b.same(&a))
        }
        _ => Err(Stop::NoRow),
    }
}
