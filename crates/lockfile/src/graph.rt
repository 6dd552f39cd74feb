//! The graph of a file.
ghost use Rattle.std.specs.Prelude.{◌≡◌, [], All, IfOk, OnOk, ℕ, List};
ghost use Rattle.variant_values.specs.Texts.{byte_cmp};
ghost use Rattle.keyed_lists.specs.Keyed.{IsInOrder, find_key};
ghost use Rattle.graph_core.specs.Graphs.{HasNode, IsGraph, node_of, name_of, ends_of, virtual_of};
ghost use Rattle.graph_core.specs.Graphs.{pair_cmp};
ghost use Rattle.lockfile.specs.Children.{all_edges};
ghost use Rattle.lockfile.specs.Files.{AreProvided};
ghost use Rattle.lockfile.specs.Locks.{AreHashesOf, IsGraphOf, graph_node, graph_nodes};
ghost use Rattle.lockfile.specs.Named.{AreNames, Collected, HasEnds};

use crate::children::all_edges;
use crate::file::File;
use crate::node::LockedNode;
use graph_core::{Compiler, Edge, Graph, Node};
use keyed_lists::insert;
use plain_data::{Duplicate, List, Word};
use reuse_db::Record;
use spec_hash::Hash;
use std::alloc::{AllocError, Global};
use std::collections::BTreeMap;
use variant_values::ValueSet;
use version_order::Version;

/// The graph of a file whose nodes have these names by their hashes.
pub(crate) fn graph_of(
    alloc: Global,
    file: &File,
    names: &BTreeMap<String, Word>,
) -> Result<Graph, AllocError>
    requires names { AreNames file.now.nodes names.now }
    requires providers { AreProvided file.now }
    ensures { IfOk result (IsGraphOf file.now) }
{
    let nodes = file.nodes.as_slice();
    let edges = all_edges(alloc, nodes, names)?;
    let mut graph = graph_of_nodes(alloc, nodes)?;
    add_edges(alloc, &mut graph, edges.as_slice())?;
    add_providers(alloc, &mut graph, file.providers.as_slice())?;
    graph_invariant(&graph);
    Ok(graph)
}

/// Brings what is known of each graph.
fn graph_invariant(graph: &Graph)
    ensures { IsGraph graph.now }
{
    let _ = graph.nodes();
}

/// A graph of the nodes alone; of two with one name the first stands.
fn graph_of_nodes(alloc: Global, nodes: &[LockedNode]) -> Result<Graph, AllocError>
    ensures nodes { IfOk result (λ g. (name : List ℕ)
        → node_of g name ≡ find_key byte_cmp name_of (graph_nodes nodes.now) name) }
    ensures edges { IfOk result (λ g. g.edges ≡ []) }
    ensures providers { IfOk result (λ g. g.providers ≡ []) }
{
    let mut graph = Graph::new(alloc);
    for node in nodes {
        let made = graph_node(alloc, node)?;
        push_node(&mut graph, made)?;
    }
    Ok(graph)
}

fn push_node(graph: &mut Graph, node: Node) -> Result<(), AllocError>
    ensures nodes { OnOk result (Collected byte_cmp name_of graph.old.nodes node graph.new.nodes) }
    ensures edges { OnOk result (graph.new.edges ≡ graph.old.edges) }
    ensures providers { OnOk result (graph.new.providers ≡ graph.old.providers) }
{
    let added = graph.add_node(node)?;
    Ok(())
}

// The parts of a record are copied in three steps, since each copy that fails drops all before it.
fn graph_node(alloc: Global, node: &LockedNode) -> Result<Node, AllocError>
    ensures { IfOk result (λ made. made ≡ graph_node node.now) }
{
    let (name, version, variants) = front_of(alloc, &node.described)?;
    let (os, target) = platform_of(alloc, &node.described)?;
    let (compiler, prefix) = chosen_of(alloc, &node.described)?;
    Ok(Node {
        name,
        version,
        variants,
        compiler,
        os,
        target,
        prefix,
        origin: node.origin,
    })
}

fn front_of(
    alloc: Global,
    entry: &Record,
) -> Result<(Word, Version, List<(Word, ValueSet)>), AllocError>
    ensures { IfOk result (λ front. front
        ≡ (entry.now.name, entry.now.version, entry.now.variants)) }
{
    let name = entry.name.duplicate(alloc)?;
    let version = entry.version.duplicate(alloc)?;
    let variants = entry.variants.duplicate(alloc)?;
    Ok((name, version, variants))
}

fn platform_of(alloc: Global, entry: &Record) -> Result<(Word, Word), AllocError>
    ensures { IfOk result (λ words. words ≡ (entry.now.os, entry.now.target)) }
{
    let os = entry.os.duplicate(alloc)?;
    let target = entry.target.duplicate(alloc)?;
    Ok((os, target))
}

fn chosen_of(alloc: Global, entry: &Record) -> Result<(Option<Compiler>, Option<Word>), AllocError>
    ensures { IfOk result (λ chosen. chosen ≡ (entry.now.compiler, entry.now.external)) }
{
    let compiler = entry.compiler.duplicate(alloc)?;
    let prefix = entry.external.duplicate(alloc)?;
    Ok((compiler, prefix))
}

fn add_edges(alloc: Global, graph: &mut Graph, edges: &[Edge]) -> Result<(), AllocError>
    requires none { graph.old.edges ≡ [] }
    requires ends { All (HasEnds graph.old) edges.now }
    ensures edges { OnOk result ((ends : List ℕ × List ℕ)
        → find_key pair_cmp ends_of graph.new.edges ends ≡ find_key pair_cmp ends_of
        edges.now ends) }
    ensures nodes { OnOk result (graph.new.nodes ≡ graph.old.nodes) }
    ensures providers { OnOk result (graph.new.providers ≡ graph.old.providers) }
{
    for edge in edges {
        let made = copy_of(alloc, edge)?;
        push_edge(graph, made)?;
    }
    Ok(())
}

fn copy_of(alloc: Global, edge: &Edge) -> Result<Edge, AllocError>
    ensures { IfOk result (λ made. made ≡ edge.now) }
{
    Ok(Edge {
        parent: edge.parent.duplicate(alloc)?,
        child: edge.child.duplicate(alloc)?,
        kinds: edge.kinds,
        virtuals: edge.virtuals.duplicate(alloc)?,
    })
}

fn push_edge(graph: &mut Graph, edge: Edge) -> Result<(), AllocError>
    requires { HasEnds graph.old edge }
    ensures edges { OnOk result (Collected pair_cmp ends_of graph.old.edges edge graph.new.edges) }
    ensures nodes { OnOk result (graph.new.nodes ≡ graph.old.nodes) }
    ensures providers { OnOk result (graph.new.providers ≡ graph.old.providers) }
{
    let added = graph.add_edge(edge)?;
    Ok(())
}

/// Adds each virtual with its package; of two the first stands.
fn add_providers(
    alloc: Global,
    graph: &mut Graph,
    providers: &[(Word, Word)],
) -> Result<(), AllocError>
    requires none { graph.old.providers ≡ [] }
    requires nodes { All (λ provider. HasNode graph.old provider.1) providers.now }
    ensures providers { OnOk result ((name : List ℕ)
        → find_key byte_cmp virtual_of graph.new.providers name ≡ find_key byte_cmp virtual_of
        providers.now name) }
    ensures nodes { OnOk result (graph.new.nodes ≡ graph.old.nodes) }
    ensures edges { OnOk result (graph.new.edges ≡ graph.old.edges) }
{
    for provider in providers {
        let name = provider.0.duplicate(alloc)?;
        let by = provider.1.duplicate(alloc)?;
        push_provider(graph, name, by)?;
    }
    Ok(())
}

fn push_provider(graph: &mut Graph, name: Word, by: Word) -> Result<(), AllocError>
    requires { HasNode graph.old by }
    ensures providers { OnOk result
        (Collected byte_cmp virtual_of graph.old.providers (name, by) graph.new.providers) }
    ensures nodes { OnOk result (graph.new.nodes ≡ graph.old.nodes) }
    ensures edges { OnOk result (graph.new.edges ≡ graph.old.edges) }
{
    let added = graph.set_provider(name, by)?;
    Ok(())
}

/// The names of the nodes with their hashes, in byte order of names.
pub(crate) fn hashes_of(
    alloc: Global,
    nodes: &[LockedNode],
) -> Result<List<(Word, Hash)>, AllocError>
    ensures { IfOk result (AreHashesOf nodes.now) }
{
    let mut hashes = Vec::new(alloc);
    for node in nodes {
        let name = node.described.name.duplicate(alloc)?;
        push_hash(&mut hashes, name, node.described.hash)?;
    }
    Ok(List::from_vec(hashes))
}

fn push_hash(hashes: &mut Vec<(Word, Hash)>, name: Word, hash: Hash) -> Result<(), AllocError>
    requires { IsInOrder byte_cmp (λ h. h.0) hashes.old.items }
    ensures order { OnOk result (IsInOrder byte_cmp (λ h. h.0) hashes.new.items) }
    ensures found { OnOk result (Collected byte_cmp (λ h. h.0) hashes.old.items (name, hash)
        hashes.new.items) }
{
    let added = insert(hashes, (name, hash))?;
    Ok(())
}
