// Nodes with their items, and records.

use crate::read::{compiler_of, kinds_of, plain_node, values_of, version_of};
use graph_core::{Node, Origin};
use plain_data::{List, Word};
use reuse_db::{Dependency, Record, canonical};
use spec_hash::{Hash, hash_text};
use std::alloc::{AllocError, Global};

fn set_variant(alloc: Global, node: &mut Node, name: &str, texts: &str) -> Result<(), AllocError> {
    let values = values_of(alloc, texts)?;
    node.variants.push((Word::new(alloc, name)?, values))?;
    Ok(())
}

fn set_key(
    alloc: Global,
    node: &mut Node,
    records: &[Record],
    key: &str,
    value: &str,
) -> Result<(), AllocError> {
    match key {
        "os" => node.os = Word::new(alloc, value)?,
        "target" => node.target = Word::new(alloc, value)?,
        "prefix" => node.prefix = Some(Word::new(alloc, value)?),
        "external" => {
            if let Ok(place) = value.parse::<u64>() {
                node.origin = Origin::External(place);
            }
        }
        "installed" => {
            if let Some(hash) = hash_named(records, value) {
                node.origin = Origin::Installed(hash);
            }
        }
        _ => set_variant(alloc, node, key, value)?,
    }
    Ok(())
}

// `+v`, `~v`, `KEY=VALUE` or `%COMPILER`; `%` alone is no compiler.
fn set_item(
    alloc: Global,
    node: &mut Node,
    records: &[Record],
    item: &str,
) -> Result<(), AllocError> {
    if let Some(name) = item.strip_prefix('+') {
        return set_variant(alloc, node, name, "true");
    }
    if let Some(name) = item.strip_prefix('~') {
        return set_variant(alloc, node, name, "false");
    }
    if let Some(compiler) = item.strip_prefix('%') {
        node.compiler = compiler_of(alloc, compiler)?;
        return Ok(());
    }
    match item.split_once('=') {
        Some((key, value)) => set_key(alloc, node, records, key, value),
        None => Ok(()),
    }
}

/// The node of a name, a version and items.
pub fn node_of(
    alloc: Global,
    records: &[Record],
    name: &str,
    version: &str,
    items: &[&str],
) -> Result<Option<Node>, AllocError> {
    let Some(version) = version_of(alloc, version)? else {
        return Ok(None);
    };
    let mut node = plain_node(alloc, name, version)?;
    for item in items {
        set_item(alloc, &mut node, records, item)?;
    }
    Ok(Some(node))
}

fn hash_named(records: &[Record], name: &str) -> Option<Hash> {
    for entry in records {
        if entry.name.as_str() == name {
            return Some(entry.hash);
        }
    }
    None
}

fn add_child(
    alloc: Global,
    children: &mut List<Dependency>,
    records: &[Record],
    word: &str,
) -> Result<(), AllocError> {
    let (name, rest) = word.split_once(':').unwrap_or((word, "l"));
    let (letters, texts) = rest.split_once(':').unwrap_or((rest, ""));
    if let Some(hash) = hash_named(records, name) {
        let virtuals = values_of(alloc, texts)?;
        children.push(Dependency {
            hash,
            kinds: kinds_of(letters),
            virtuals,
        })?;
    }
    Ok(())
}

/// What a record depends on: `NAME:KINDS` or `NAME:KINDS:VIRTUAL,VIRTUAL` of earlier records.
pub fn children_of(
    alloc: Global,
    records: &[Record],
    words: &[&str],
) -> Result<List<Dependency>, AllocError> {
    let mut children = List::new(alloc);
    for word in words {
        add_child(alloc, &mut children, records, word)?;
    }
    Ok(children)
}

/// The record of a node, whose hash is not computed yet.
pub fn record_of(node: Node, dependencies: List<Dependency>) -> Record {
    Record {
        hash: hash_text(&[]),
        name: node.name,
        version: node.version,
        variants: node.variants,
        compiler: node.compiler,
        os: node.os,
        target: node.target,
        external: node.prefix,
        dependencies,
    }
}

/// Computes the hash of a record.
pub fn set_hash(alloc: Global, entry: &mut Record) -> Result<(), AllocError> {
    let text = canonical(alloc, entry)?;
    entry.hash = hash_text(text.as_slice());
    Ok(())
}
