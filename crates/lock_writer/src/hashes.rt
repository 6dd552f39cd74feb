//! The hashes of all nodes.
ghost use Rattle.std.specs.Prelude.{◌≡◌, ◌+◌, ℕ, All, IfOk, OnOk, IsTrue, Some, false, length};
ghost use Rattle.std.specs.Prelude.{replicate};
ghost use Rattle.std.specs.List.{AllZip, list_all};
ghost use Rattle.reachability.specs.Paths.{IsAcyclic};
ghost use Rattle.reachability.specs.Places.{IsAt};
ghost use Rattle.graph_core.specs.Graphs.{IsGraph, edges_from, node_of};
ghost use Rattle.graph_core.specs.Paths.{JoinedIn};
ghost use Rattle.lock_writer.specs.Hashes.{node_hash, hash_over};
ghost use Rattle.lock_writer.specs.Known.{AreChildren, AreHashes, DoneWithin, IsHashAt, Keeps};
ghost use Rattle.lock_writer.specs.Known.{all_hashes, is_done, names_of};

use crate::children::children_of;
use crate::record::{dependencies_of, own_hash};
use graph_core::{Graph, Node, Origin};
use plain_data::List;
use spec_hash::{Hash, hash_text};
use std::alloc::{AllocError, Global};

/// The hash of each node, in the order of the nodes.
///
/// Goes over the nodes in as many rounds as there are nodes, and takes each whose children's hashes
/// are known. So it takes steps by the square of the number of nodes, most of which are one
/// comparison.
pub fn node_hashes(alloc: Global, graph: &Graph) -> Result<Vec<Hash>, AllocError>
    requires { IsAcyclic (JoinedIn graph.now) }
    ensures { IfOk result (λ hashes. hashes.items ≡ all_hashes graph.now) }
{
    let children = children_of(alloc, graph)?;
    let places = count(graph);
    let mut hashes = no_hashes(alloc, places)?;
    let mut done = none_done(alloc, places)?;
    for round in 0..places {
        find_hashes(alloc, graph, children.as_slice(), &mut hashes, &mut done)?;
    }
    Ok(hashes)
}

fn count(graph: &Graph) -> usize
    ensures count { result ≡ length graph.now.nodes }
    ensures graph { IsGraph graph.now }
{
    graph.nodes().len()
}

fn no_hashes(alloc: Global, places: usize) -> Result<Vec<Hash>, AllocError>
    ensures { IfOk result (λ hashes. length hashes.items ≡ places) }
{
    vec![in alloc; hash_text(&[]); places]
}

fn none_done(alloc: Global, places: usize) -> Result<Vec<bool>, AllocError>
    ensures { IfOk result (λ done. done.items ≡ replicate places false) }
{
    vec![in alloc; false; places]
}

/// Finds the hash of each node whose children's are known.
fn find_hashes(
    alloc: Global,
    graph: &Graph,
    children: &[List<usize>],
    hashes: &mut Vec<Hash>,
    done: &mut Vec<bool>,
) -> Result<(), AllocError>
    requires acyclic { IsAcyclic (JoinedIn graph.now) }
    requires children { AllZip
        (λ node places. AreChildren graph.now (edges_from graph.now node.name) places)
        graph.now.nodes children.now }
    requires right { AreHashes graph.now hashes.old.items done.old.items }
    ensures right { OnOk result (AreHashes graph.now hashes.new.items done.new.items) }
    ensures more { OnOk result ((rounds : ℕ) → DoneWithin graph.now rounds done.old.items
        → DoneWithin graph.now (rounds + 1) done.new.items) }
{
    let nodes = graph.nodes();
    for place in 0..nodes.len() {
        let node = &nodes[place];
        let places = children[place].as_slice();
        find_hash(alloc, graph, node, place, places, hashes, done)?;
    }
    Ok(())
}

/// Finds the hash of the node at a place, if those of its children are known.
#[tactic(auto, using(crate::proofs::KnownLaws::children_known, crate::proofs::KnownLaws::one_more, crate::proofs::KnownLaws::kept_more, crate::proofs::KnownLaws::kept_all, crate::proofs::KnownLaws::done_there))]
fn find_hash(
    alloc: Global,
    graph: &Graph,
    node: &Node,
    place: usize,
    children: &[usize],
    hashes: &mut Vec<Hash>,
    done: &mut Vec<bool>,
) -> Result<(), AllocError>
    requires graph { IsGraph graph.now }
    requires acyclic { IsAcyclic (JoinedIn graph.now) }
    requires there { IsAt (names_of graph.now) node.now.name place }
    requires found { node_of graph.now node.now.name ≡ Some node.now }
    requires children { AreChildren graph.now (edges_from graph.now node.now.name) children.now }
    requires right { AreHashes graph.now hashes.old.items done.old.items }
    ensures right { OnOk result (AreHashes graph.now hashes.new.items done.new.items) }
    ensures kept { OnOk result (Keeps done.old.items done.new.items) }
    ensures found { OnOk result (IsTrue (list_all (is_done done.old.items) children.now)
        → IsTrue (is_done done.new.items place)) }
{
    if is_done(done.as_slice(), place) || !are_done(children, done.as_slice()) {
        return Ok(());
    }
    let hash = hash_of(alloc, graph, node, hashes.as_slice())?;
    hashes[place] = hash;
    done[place] = true;
    Ok(())
}

fn are_done(places: &[usize], done: &[bool]) -> bool
    ensures { result ≡ list_all (is_done done.now) places.now }
{
    places.iter().all(|place| is_done(done, *place))
}

fn is_done(done: &[bool], place: usize) -> bool
    ensures { result ≡ is_done done.now place }
{
    match done.get(place) {
        Some(is) => *is,
        None => false,
    }
}

/// The hash of a node, where those of its children are known.
fn hash_of(alloc: Global, graph: &Graph, node: &Node, hashes: &[Hash]) -> Result<Hash, AllocError>
    requires children { All (λ edge. IsHashAt graph.now hashes.now edge.child)
        (edges_from graph.now node.now.name) }
    requires graph { IsGraph graph.now }
    requires each { length hashes.now ≡ length graph.now.nodes }
    ensures { IfOk result (λ hash. hash ≡ hash_over graph.now (node_hash graph.now) node.now) }
{
    match node.origin {
        Origin::Installed(hash) => Ok(hash),
        _ => {
            let edges = graph.edges_from(node.name.as_str());
            let dependencies = dependencies_of(alloc, graph, edges, hashes)?;
            own_hash(alloc, node, dependencies)
        }
    }
}
