//! Rows of hashes.
use crate::fields::{Field, text_of, truth};
use crate::stop::Stop;
use spec_hash::{Hash, hash_text};
use std::alloc::Global;

/// The hash of a text, which is read again as itself.
fn hash_of(alloc: Global, text: &[u8]) -> Result<String, Stop> {
    let hash = hash_text(text);
    if Hash::read(hash.as_str()) != Some(hash) {
        return Err(Stop::TwoAnswers);
    }
    Ok(String::from_str(alloc, hash.as_str())?)
}

/// The hash of so many times `a`.
fn hash_of_many(alloc: Global, count: &str) -> Result<String, Stop> {
    match count.parse::<usize>() {
        Ok(count) => hash_of(alloc, &vec![in alloc; b'a'; count]?),
        Err(_) => Err(Stop::NoRow),
    }
}

/// Whether a text is a hash, which then has that text.
fn is_hash(alloc: Global, text: &str) -> Result<String, Stop> {
    match Hash::read(text) {
        Some(hash) if hash.as_str() != text => Err(Stop::TwoAnswers),
        read => truth(alloc, read.is_some()),
    }
}

pub(crate) fn answer(alloc: Global, name: &str, args: &[Field]) -> Result<String, Stop> {
    match (name, args) {
        ("text", [text]) => hash_of(alloc, text.as_slice()),
        ("many", [count]) => hash_of_many(alloc, text_of(count)?),
        ("read", [text]) => is_hash(alloc, text_of(text)?),
        _ => Err(Stop::NoRow),
    }
}
