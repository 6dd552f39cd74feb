// Words as what they are made of.

use graph_core::{Compiler, Kinds, Node, Origin};
use plain_data::{List, Word};
use std::alloc::{AllocError, Global};
use variant_values::ValueSet;
use version_order::{Version, VersionFault};

/// The text of a recipe whose lines are parted by `;`.
pub fn recipe_text(alloc: Global, lines: &str) -> Result<String, AllocError> {
    let mut text = String::from_str(alloc, "class P(Package):\n")?;
    for line in lines.split(';') {
        text.push_str("    ")?;
        text.push_str(line.trim())?;
        text.push_str("\n")?;
    }
    Ok(text)
}

/// Letters of `blr` as kinds.
pub fn kinds_of(letters: &str) -> Kinds {
    Kinds {
        build: letters.contains('b'),
        link: letters.contains('l'),
        run: letters.contains('r'),
    }
}

/// A version, where the text is one.
pub fn version_of(alloc: Global, text: &str) -> Result<Option<Version>, AllocError> {
    match Version::read(alloc, text) {
        Ok(version) => Ok(Some(version)),
        Err(VersionFault::OutOfMemory) => Err(AllocError),
        Err(_) => Ok(None),
    }
}

/// `NAME@VERSION` as a compiler.
pub fn compiler_of(alloc: Global, word: &str) -> Result<Option<Compiler>, AllocError> {
    let Some((name, version)) = word.split_once('@') else {
        return Ok(None);
    };
    let Some(version) = version_of(alloc, version)? else {
        return Ok(None);
    };
    let name = Word::new(alloc, name)?;
    Ok(Some(Compiler { name, version }))
}

/// Texts parted by `,` as a set.
pub fn values_of(alloc: Global, texts: &str) -> Result<ValueSet, AllocError> {
    let mut values = ValueSet::new(alloc);
    if texts.is_empty() {
        return Ok(values);
    }
    for text in texts.split(',') {
        values.insert(Word::new(alloc, text)?)?;
    }
    Ok(values)
}

/// A node to build, as the standard settings would build it.
pub fn plain_node(alloc: Global, name: &str, version: Version) -> Result<Node, AllocError> {
    Ok(Node {
        name: Word::new(alloc, name)?,
        version,
        variants: List::new(alloc),
        compiler: compiler_of(alloc, "gcc@12.3.0")?,
        os: Word::new(alloc, "ubuntu22.04")?,
        target: Word::new(alloc, "x86_64")?,
        prefix: None,
        origin: Origin::Built,
    })
}
