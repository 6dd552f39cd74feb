//! Lock files.
ghost use Rattle.std.specs.Prelude.{◌≡◌, ◌++◌, ◌∷◌, [], All, Contains, IfOk, map, length};
ghost use Rattle.std.specs.Str.{IsUtf8};
ghost use Rattle.serde_json.specs.Data.{array, object};
ghost use Rattle.serde_json.specs.View.{view, items_of, items_view, members_view};
ghost use Rattle.json_readers.specs.Json.{IsJson};
ghost use Rattle.spec_grammar.specs.Canonical.{spec_text};
ghost use Rattle.graph_core.specs.Graphs.{HasNode, IsGraph};
ghost use Rattle.lock_writer.specs.Known.{all_hashes};
ghost use Rattle.lock_writer.specs.Hashes.{node_hash};
ghost use Rattle.lock_writer.specs.Texts.{CanBeWritten, IsOfNode, IsRecorded, data_of_node};
ghost use Rattle.lock_writer.specs.Texts.{lock_data, lock_text, own_data, provider_members};
ghost use Rattle.lock_writer.specs.Texts.{root_data, root_of};

use crate::hashes::node_hashes;
use crate::node::node_value;
use crate::record::{dependencies_of, record_of_node};
use crate::test::name_of;
use graph_core::{Graph, Node, Origin, known_place};
use plain_data::Word;
use reuse_db::Database;
use serde_json::{Map, Value, json, put};
use spec_grammar::{Spec, write_spec};
use spec_hash::Hash;
use std::alloc::{AllocError, Global};

/// The lock file of a graph whose nodes are built, external or installed in the database, with the
/// roots in order: one line of compact JSON, which is read as the value that it was written for.
pub fn write_lock(
    alloc: Global,
    graph: &Graph,
    database: &Database,
    roots: &[Spec],
) -> Result<Vec<u8>, AllocError>
    requires { CanBeWritten graph.now database.now roots.now }
    ensures text { IfOk result (λ text. text.items ≡ lock_text graph.now database.now roots.now) }
    ensures read { IfOk result (λ text. IsJson text.items
        (lock_data graph.now database.now roots.now)) }
{
    let value = lock_value(alloc, graph, database, roots)?;
    let mut text = value.to_vec(alloc)?;
    text.push(b'\n')?;
    Ok(text)
}

#[tactic(auto, unfolding(crate::specs::Texts::lock_data))]
fn lock_value(
    alloc: Global,
    graph: &Graph,
    database: &Database,
    roots: &[Spec],
) -> Result<Value, AllocError>
    requires { CanBeWritten graph.now database.now roots.now }
    ensures { IfOk result (λ value. view value ≡ lock_data graph.now database.now roots.now) }
{
    let hashes = node_hashes(alloc, graph)?;
    let nodes = nodes_value(alloc, graph, database, hashes.as_slice())?;
    let providers = providers_value(alloc, graph.providers())?;
    let roots = roots_value(alloc, graph, roots, hashes.as_slice())?;
    json!(in alloc; {"nodes": nodes, "providers": providers, "roots": roots, "version": 2u64})
}

// ---- nodes

fn nodes_value(
    alloc: Global,
    graph: &Graph,
    database: &Database,
    hashes: &[Hash],
) -> Result<Value, AllocError>
    requires hashes { hashes.now ≡ all_hashes graph.now }
    requires installed { All (λ node. IsRecorded database.now node.origin) graph.now.nodes }
    ensures { IfOk result (λ value. view value
        ≡ array (items_of (map (data_of_node graph.now database.now) graph.now.nodes))) }
{
    let mut values = Vec::new(alloc);
    for node in graph.nodes() {
        values.push(value_of_node(alloc, graph, database, node, hashes)?)?;
    }
    Ok(Value::Array(values))
}

/// The object of a node: that of its record, where it is installed.
fn value_of_node(
    alloc: Global,
    graph: &Graph,
    database: &Database,
    node: &Node,
    hashes: &[Hash],
) -> Result<Value, AllocError>
    requires graph { IsGraph graph.now }
    requires hashes { hashes.now ≡ all_hashes graph.now }
    requires there { Contains graph.now.nodes node.now }
    requires installed { IsRecorded database.now node.now.origin }
    ensures { IfOk result (λ value. view value ≡ data_of_node graph.now database.now node.now) }
{
    match &node.origin {
        Origin::Built => own_value(alloc, graph, node, hashes),
        Origin::External(_) => own_value(alloc, graph, node, hashes),
        Origin::Installed(hash) => match database.find(hash) {
            Some(entry) => node_value(alloc, entry, &node.origin),
            None => unreachable!(),
        },
    }
}

fn own_value(
    alloc: Global,
    graph: &Graph,
    node: &Node,
    hashes: &[Hash],
) -> Result<Value, AllocError>
    requires graph { IsGraph graph.now }
    requires hashes { hashes.now ≡ all_hashes graph.now }
    requires there { Contains graph.now.nodes node.now }
    ensures { IfOk result (λ value. view value ≡ own_data graph.now node.now) }
{
    let edges = graph.edges_from(node.name.as_str());
    let dependencies = dependencies_of(alloc, graph, edges, hashes)?;
    let hash = hash_at(graph, hashes, node.name.as_str());
    let entry = record_of_node(alloc, node, hash, dependencies)?;
    node_value(alloc, &entry, &node.origin)
}

// The hash of a node that is there.
fn hash_at(graph: &Graph, hashes: &[Hash], name: &str) -> Hash
    requires hashes { hashes.now ≡ all_hashes graph.now }
    requires there { HasNode graph.now name.now }
    ensures { result ≡ node_hash graph.now name.now }
{
    let place = known_place(graph, name);
    hashes[place]
}

// ---- providers and roots

/// Each virtual with the package that provides it.
fn providers_value(alloc: Global, providers: &[(Word, Word)]) -> Result<Value, AllocError>
    ensures { IfOk result (λ value. view value ≡ object (provider_members providers.now)) }
{
    let mut members = Map::new(alloc);
    for provider in providers {
        let package = Value::try_from_str(alloc, provider.1.as_str())?;
        put(&mut members, alloc, provider.0.as_str(), package)?;
    }
    Ok(Value::Object(members))
}

fn roots_value(
    alloc: Global,
    graph: &Graph,
    roots: &[Spec],
    hashes: &[Hash],
) -> Result<Value, AllocError>
    requires hashes { hashes.now ≡ all_hashes graph.now }
    requires roots { All (IsOfNode graph.now) roots.now }
    requires texts { All (λ root. IsUtf8 (spec_text root)) roots.now }
    ensures { IfOk result (λ value. view value
        ≡ array (items_of (map (root_data graph.now) roots.now))) }
{
    Ok(Value::Array(root_values(alloc, graph, roots, hashes)?))
}

fn root_values(
    alloc: Global,
    graph: &Graph,
    roots: &[Spec],
    hashes: &[Hash],
) -> Result<Vec<Value>, AllocError>
    requires hashes { hashes.now ≡ all_hashes graph.now }
    requires roots { All (IsOfNode graph.now) roots.now }
    requires texts { All (λ root. IsUtf8 (spec_text root)) roots.now }
    ensures { IfOk result (λ values. items_view values.items
        ≡ items_of (map (root_data graph.now) roots.now)) }
{
    let mut values = Vec::new(alloc);
    for root in roots {
        values.push(root_value(alloc, graph, root, hashes)?)?;
    }
    Ok(values)
}

/// A requested spec with the hash of its node.
fn root_value(
    alloc: Global,
    graph: &Graph,
    root: &Spec,
    hashes: &[Hash],
) -> Result<Value, AllocError>
    requires hashes { hashes.now ≡ all_hashes graph.now }
    requires root { IsOfNode graph.now root.now }
    requires text { IsUtf8 (spec_text root.now) }
    ensures { IfOk result (λ value. view value ≡ root_data graph.now root.now) }
{
    let hash = hash_at(graph, hashes, name_of(root));
    let text = write_spec(alloc, root)?;
    match std::str::from_utf8(text.as_slice()) {
        Ok(text) => root_of(alloc, &hash, text),
        Err(_) => unreachable!(),
    }
}

fn root_of(alloc: Global, hash: &Hash, text: &str) -> Result<Value, AllocError>
    ensures { IfOk result (λ value. view value ≡ root_of hash.now text.now) }
{
    json!(in alloc; {"hash": hash.as_str(), "spec": text})
}
