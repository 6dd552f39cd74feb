//! A graph.
ghost use Rattle.std.specs.Prelude.{◌≡◌, ◌↔◌, ◌≤◌, length, map, filter, None, IfOk, OnErr, IsTrue};
ghost use Rattle.std.specs.Prelude.{MatchResult, if◌then◌else◌};
ghost use Rattle.std.specs.Option.{option_copied};
ghost use Rattle.std.specs.List.{slice_range};
ghost use Rattle.std.specs.Str.{bytes_eq};
ghost use Rattle.keyed_lists.specs.OfVariantValues.Texts.{byte_cmp};
ghost use Rattle.keyed_lists.specs.Keyed.{IsInOrder, IsPlaceOf, IsGapFor};
ghost use Rattle.graph_core.specs.Graphs.{IsGraph, HasNode, no_content, name_of, ends_of, pair_cmp};
ghost use Rattle.graph_core.specs.Graphs.{node_of, edge_of, edges_from, provider_of, with_node};
ghost use Rattle.graph_core.specs.Graphs.{with_edge, with_provider};

use crate::{Edge, Node};
use keyed_lists::{find, has_key, insert, place_of};
use plain_data::Word;
use std::alloc::{AllocError, Global};
use std::cmp::Ordering;
use std::marker::Model;

/// A graph of packages, seen as its nodes by name, its edges by parent and child, and its providers
/// by virtual, each key once. Edges lead from nodes to nodes, and packages that provide are nodes.
#[derive(Debug, Drop)]
pub struct Graph {
    nodes: Vec<Node>,
    edges: Vec<Edge>,
    providers: Vec<(Word, Word)>,
}

impl Model for Graph {
    ghost use Rattle.graph_core.specs.Graphs.{Content, IsGraph};

    ghost Value = { Content };

    ghost view = { λ g. record { nodes = g.nodes.items; edges = g.edges.items; providers = g.providers.items } };

    ghost invariant = { λ g. IsGraph (record { nodes = g.nodes.items; edges = g.edges.items; providers = g.providers.items }) };
}

impl Graph {
    /// The empty graph.
    pub fn new(alloc: Global) -> Graph
        ensures { result ≡ no_content }
    {
        Graph {
            nodes: Vec::new(alloc),
            edges: Vec::new(alloc),
            providers: Vec::new(alloc),
        }
    }

    /// The graph of lists that are in order already.
    pub fn from_parts(nodes: Vec<Node>, edges: Vec<Edge>, providers: Vec<(Word, Word)>) -> Graph
        requires { IsGraph (record {
          nodes = nodes.items;
          edges = edges.items;
          providers =
              providers.items;
        }) }
        ensures { result ≡ record {
          nodes = nodes.items;
          edges = edges.items;
          providers =
              providers.items;
        } }
    {
        Graph {
            nodes,
            edges,
            providers,
        }
    }

    /// Adds a node; `false`, and nothing is changed, exactly where its name is there.
    pub fn add_node(&mut self, node: Node) -> Result<bool, AllocError>
        ensures added { IfOk result (λ added. IsTrue added ↔ (node_of self.old node.name ≡ None)) }
        ensures new { IfOk result (λ added. self.new
            ≡ (if added then with_node self.old node else self.old)) }
        ensures err { OnErr result (self.new ≡ self.old) }
    {
        insert(&mut self.nodes, node)
    }

    /// Adds an edge; `false`, and nothing is changed, exactly where one between its ends is there,
    /// or an end is no node.
    pub fn add_edge(&mut self, edge: Edge) -> Result<bool, AllocError>
        ensures added { IfOk result (λ added. IsTrue added
            ↔ ((edge_of self.old edge.parent edge.child ≡ None)
            × HasNode self.old edge.parent × HasNode self.old edge.child)) }
        ensures new { IfOk result (λ added. self.new
            ≡ (if added then with_edge self.old edge else self.old)) }
        ensures err { OnErr result (self.new ≡ self.old) }
    {
        if !self.has_ends(&edge) {
            return Ok(false);
        }
        match self.edge_place(edge.parent.as_str(), edge.child.as_str()) {
            Ok(_) => Ok(false),
            Err(place) => {
                self.edges.insert(place, edge)?;
                Ok(true)
            }
        }
    }

    /// Sets the package that provides a virtual; `false`, and nothing is changed, exactly where the
    /// virtual has one, or the package is no node.
    pub fn set_provider(&mut self, name: Word, provider: Word) -> Result<bool, AllocError>
        ensures added { IfOk result (λ added. IsTrue added
            ↔ ((provider_of self.old name ≡ None) × HasNode self.old provider)) }
        ensures new { IfOk result (λ added. self.new
            ≡ (if added then with_provider self.old name provider else self.old)) }
        ensures err { OnErr result (self.new ≡ self.old) }
    {
        if !self.has_node(provider.as_str()) {
            return Ok(false);
        }
        insert(&mut self.providers, (name, provider))
    }

    /// The node of this name.
    pub fn node(&self, name: &str) -> Option<&Node>
        ensures { option_copied result ≡ node_of self.now name.now }
    {
        find(self.nodes.as_slice(), name)
    }

    /// All nodes, in byte order of their names.
    pub fn nodes(&self) -> &[Node]
        ensures nodes { result.now ≡ self.now.nodes }
        ensures graph { IsGraph self.now }
    {
        self.nodes.as_slice()
    }

    /// The edge from one node to another.
    pub fn edge(&self, parent: &str, child: &str) -> Option<&Edge>
        ensures { option_copied result ≡ edge_of self.now parent.now child.now }
    {
        match self.edge_place(parent, child) {
            Ok(place) => Some(&self.edges[place]),
            Err(_) => None,
        }
    }

    /// All edges, in byte order of the parents and then of the children.
    pub fn edges(&self) -> &[Edge]
        ensures edges { result.now ≡ self.now.edges }
        ensures graph { IsGraph self.now }
    {
        self.edges.as_slice()
    }

    /// The edges from a node, in byte order of the children.
    pub fn edges_from(&self, name: &str) -> &[Edge]
        ensures { result.now ≡ edges_from self.now name.now }
    {
        let edges = self.edges.as_slice();
        let (first, end) = run_from(edges, name);
        &edges[first..end]
    }

    /// All providers, as a virtual and the package that provides it, in byte order of the virtuals.
    pub fn providers(&self) -> &[(Word, Word)]
        ensures providers { result.now ≡ self.now.providers }
        ensures graph { IsGraph self.now }
    {
        self.providers.as_slice()
    }

    /// The package that provides a virtual.
    pub fn provider_of(&self, name: &str) -> Option<&str>
        ensures { option_copied result ≡ provider_of self.now name.now }
    {
        match find(self.providers.as_slice(), name) {
            Some(provider) => Some(provider.1.as_str()),
            None => None,
        }
    }

    /// The place of a node among `nodes`, or else where it would stand.
    pub fn node_place(&self, name: &str) -> Result<usize, usize>
        ensures place { MatchResult result (IsPlaceOf byte_cmp name_of self.now.nodes name.now)
            (IsGapFor byte_cmp name_of self.now.nodes name.now) }
        ensures graph { IsGraph self.now }
    {
        place_of(self.nodes.as_slice(), name)
    }

    fn has_node(&self, name: &str) -> bool
        ensures { IsTrue result ↔ HasNode self.now name.now }
    {
        has_key(self.nodes.as_slice(), name)
    }

    fn has_ends(&self, edge: &Edge) -> bool
        ensures { IsTrue result ↔ (HasNode self.now edge.now.parent
            × HasNode self.now edge.now.child) }
    {
        self.has_node(edge.parent.as_str()) && self.has_node(edge.child.as_str())
    }

    // Where the edge between these stands, or else where it would stand.
    fn edge_place(&self, parent: &str, child: &str) -> Result<usize, usize>
        ensures place { MatchResult result
            (IsPlaceOf pair_cmp ends_of self.now.edges (parent.now, child.now))
            (IsGapFor pair_cmp ends_of self.now.edges (parent.now, child.now)) }
        ensures graph { IsGraph self.now }
    {
        self.edges
            .binary_search_by(|edge| ends_cmp(edge, parent, child))
    }
}

// Where the edges from a node begin and end.
fn run_from(edges: &[Edge], name: &str) -> (usize, usize)
    requires { IsInOrder pair_cmp ends_of edges.now }
    ensures bounds { result.0 ≤ result.1 }
    ensures within { result.1 ≤ length edges.now }
    ensures run { slice_range edges.now result.0 result.1
        ≡ filter (λ edge. bytes_eq edge.parent name.now) edges.now }
{
    let first = edges.partition_point(|edge| edge.parent.as_str().cmp(name).is_lt());
    let end = edges.partition_point(|edge| edge.parent.as_str().cmp(name).is_le());
    (first, end)
}

fn ends_cmp(edge: &Edge, parent: &str, child: &str) -> Ordering
    ensures { result ≡ pair_cmp (ends_of edge.now) (parent.now, child.now) }
{
    edge.parent
        .as_str()
        .cmp(parent)
        .then(edge.child.as_str().cmp(child))
}
