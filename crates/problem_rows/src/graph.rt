//! Graphs of rows.
//!
//! The items are put one after another, with `;` between them: `NAME VERSION CONDITION` is a node
//! with the variants, the compiler and the operating system and target that the condition asks for
//! (`gcc@12.2`, `ubuntu22.04` and `x86_64` where it asks for none), `PARENT > CHILD` an edge,
//! `VIRTUAL = PACKAGE` a provider. An item that cannot be put is left out.

use crate::nodes::{compiler_of, edge_of, plain_node};
use graph_core::{Graph, Kinds, Node};
use plain_data::{Duplicate, Word};
use spec_grammar::{Part, Spec, read_condition};
use std::alloc::{AllocError, Global};
use version_order::Version;

const BUILT_AND_LINKED: Kinds = Kinds {
    build: true,
    link: true,
    run: false,
};

fn word_or(alloc: Global, word: &Option<Word>, other: &str) -> Result<Word, AllocError> {
    match word {
        Some(word) => word.duplicate(alloc),
        None => Word::new(alloc, other),
    }
}

fn target_of(alloc: Global, part: &Part) -> Result<Word, AllocError> {
    if let Some(items) = &part.targets
        && let Some(item) = items.as_slice().first()
    {
        return word_or(alloc, &item.low, "x86_64");
    }
    Word::new(alloc, "x86_64")
}

fn set_asked(alloc: Global, node: &mut Node, part: &Part) -> Result<(), AllocError> {
    node.variants = part.variants.duplicate(alloc)?;
    node.compiler = Some(compiler_of(alloc)?);
    node.os = word_or(alloc, &part.os, "ubuntu22.04")?;
    node.target = target_of(alloc, part)?;
    Ok(())
}

fn node_of(alloc: Global, name: &str, version: Version, part: &Part) -> Result<Node, AllocError> {
    let mut node = plain_node(alloc, name, version)?;
    match set_asked(alloc, &mut node, part) {
        Ok(()) => Ok(node),
        Err(fault) => {
            drop(node);
            Err(fault)
        }
    }
}

fn asked_node(
    alloc: Global,
    name: &str,
    version: Version,
    condition: &str,
) -> Result<Option<Node>, AllocError> {
    match read_condition(alloc, condition) {
        Ok(spec) => {
            let node = node_of(alloc, name, version, &spec.top);
            drop(spec);
            node.map(Some)
        }
        Err(_) => Ok(None),
    }
}

fn put_node(alloc: Global, graph: &mut Graph, item: &str) -> Result<(), AllocError> {
    let (name, rest) = item.split_once(' ').unwrap_or((item, "1.0"));
    let (version, condition) = rest.split_once(' ').unwrap_or((rest, ""));
    let condition = if condition == "" { name } else { condition };
    let Ok(version) = Version::read(alloc, version) else {
        return Ok(());
    };
    if let Some(node) = asked_node(alloc, name, version, condition)? {
        graph.add_node(node)?;
    }
    Ok(())
}

fn put(alloc: Global, graph: &mut Graph, item: &str) -> Result<(), AllocError> {
    if let Some((parent, child)) = item.split_once(" > ") {
        graph.add_edge(edge_of(alloc, parent, child, BUILT_AND_LINKED)?)?;
        return Ok(());
    }
    if let Some((name, provider)) = item.split_once(" = ") {
        graph.set_provider(Word::new(alloc, name)?, Word::new(alloc, provider)?)?;
        return Ok(());
    }
    put_node(alloc, graph, item)
}

/// The graph of these items.
pub(crate) fn graph_of(alloc: Global, items: &str) -> Result<Graph, AllocError> {
    let mut graph = Graph::new(alloc);
    for item in items.split(';') {
        put(alloc, &mut graph, item.trim())?;
    }
    Ok(graph)
}
