//! Nodes and edges, as far as all rows have them.

use graph_core::{Compiler, Edge, Kinds, Node, Origin};
use plain_data::{List, Word};
use std::alloc::{AllocError, Global};
use variant_values::ValueSet;
use version_order::Version;

/// A node without variants and compiler, on `ubuntu22.04` and `x86_64`.
pub(crate) fn plain_node(alloc: Global, name: &str, version: Version) -> Result<Node, AllocError> {
    Ok(Node {
        name: Word::new(alloc, name)?,
        version,
        variants: List::new(alloc),
        compiler: None,
        os: Word::new(alloc, "ubuntu22.04")?,
        target: Word::new(alloc, "x86_64")?,
        prefix: None,
        origin: Origin::Built,
    })
}

/// `gcc@12.2`.
pub(crate) fn compiler_of(alloc: Global) -> Result<Compiler, AllocError> {
    let Ok(version) = Version::read(alloc, "12.2") else {
        return Err(AllocError);
    };
    Ok(Compiler {
        name: Word::new(alloc, "gcc")?,
        version,
    })
}

/// Adds the names of a list with commas.
pub(crate) fn add_names(
    alloc: Global,
    names: &mut ValueSet,
    words: &str,
) -> Result<(), AllocError> {
    for word in words.split(',') {
        if !word.is_empty() {
            names.insert(Word::new(alloc, word)?)?;
        }
    }
    Ok(())
}

/// An edge of these kinds, which names no virtuals.
pub(crate) fn edge_of(
    alloc: Global,
    parent: &str,
    child: &str,
    kinds: Kinds,
) -> Result<Edge, AllocError> {
    let parent = Word::new(alloc, parent)?;
    let child = Word::new(alloc, child)?;
    Ok(Edge {
        parent,
        child,
        kinds,
        virtuals: ValueSet::new(alloc),
    })
}
