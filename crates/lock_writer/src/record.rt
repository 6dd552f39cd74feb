//! The records of nodes.
ghost use Rattle.std.specs.Prelude.{◌≡◌, [], length, map, All, IfOk};
ghost use Rattle.graph_core.specs.Graphs.{HasNode};
ghost use Rattle.reuse_db.specs.Canonical.{right_hash};
ghost use Rattle.lock_writer.specs.Hashes.{child_of, node_hash, record_of_node};
ghost use Rattle.lock_writer.specs.Known.{IsHashAt};

use graph_core::{Edge, Graph, Node, known_place};
use plain_data::{Duplicate, List};
use reuse_db::{Dependency, Record, canonical};
use spec_hash::{Hash, hash_text};
use std::alloc::{AllocError, Global};

/// What a node depends on by these edges: its children by their hashes.
pub(crate) fn dependencies_of(
    alloc: Global,
    graph: &Graph,
    edges: &[Edge],
    hashes: &[Hash],
) -> Result<List<Dependency>, AllocError>
    requires children { All (λ edge. HasNode graph.now edge.child) edges.now }
    requires each { length hashes.now ≡ length graph.now.nodes }
    requires hashes { All (λ edge. IsHashAt graph.now hashes.now edge.child) edges.now }
    ensures { IfOk result (λ list. list ≡ map (child_of (node_hash graph.now)) edges.now) }
{
    let mut list = List::new(alloc);
    for edge in edges {
        let place = known_place(graph, edge.child.as_str());
        list.push(Dependency {
            hash: hashes[place],
            kinds: edge.kinds,
            virtuals: edge.virtuals.duplicate(alloc)?,
        })?;
    }
    Ok(list)
}

/// The record of a node that is built or external.
pub(crate) fn record_of_node(
    alloc: Global,
    node: &Node,
    hash: Hash,
    dependencies: List<Dependency>,
) -> Result<Record, AllocError>
    ensures { IfOk result (λ entry. entry ≡ record_of_node node.now hash dependencies) }
{
    let node = node.duplicate(alloc)?;
    Ok(Record {
        hash,
        name: node.name,
        version: node.version,
        variants: node.variants,
        compiler: node.compiler,
        os: node.os,
        target: node.target,
        external: node.prefix,
        dependencies,
    })
}

/// The hash of a node that is built or external.
pub(crate) fn own_hash(
    alloc: Global,
    node: &Node,
    dependencies: List<Dependency>,
) -> Result<Hash, AllocError>
    ensures { IfOk result (λ hash. hash ≡ right_hash (record_of_node node.now [] dependencies)) }
{
    // The hash that a record has is no part of its text.
    let none = hash_text(&[]);
    let entry = record_of_node(alloc, node, none, dependencies)?;
    let computed = computed_hash(alloc, &entry);
    drop(entry);
    computed
}

fn computed_hash(alloc: Global, entry: &Record) -> Result<Hash, AllocError>
    ensures { IfOk result (λ hash. hash ≡ right_hash entry.now) }
{
    let text = canonical(alloc, entry)?;
    let computed = hash_text(text.as_slice());
    Ok(computed)
}
