//! The virtuals of a graph that was read from a lock file of the first version.
ghost use Rattle.std.specs.Prelude.{◌≡◌, ◌++◌, flat_map, map, IfOk, OnOk};
ghost use Rattle.std.specs.Option.{option_to_list};
ghost use Rattle.graph_core.specs.Graphs.{node_of};
ghost use Rattle.problem.specs.OfVirtuals.Virtuals.{is_virtual};
ghost use Rattle.graph_rules.specs.Named.{answered_virtuals, is_on_virtual, named_graph, named_edge, named_from};
ghost use Rattle.graph_judge.specs.Answered.{answered};

use crate::judging::Judge;
use condition_rules::Paths;
use graph_core::{Edge, Graph, Node, ValueSet};
use plain_data::{Duplicate, Word};
use problem::{Explored, Problem, depends_at, is_built};
use recipe_data::DependRow;
use std::alloc::{AllocError, Global};

/// The graph, where each edge of a node to build names just the virtuals whose provider is the
/// child and on which some `depends_on` holds at the node; edges of other nodes stay as they are.
///
/// # Errors
///
/// Want of memory alone.
#[tactic(auto, unfolding(graph_rules::specs::Named::named_graph))]
pub fn name_virtuals(alloc: Global, problem: &Problem, graph: &Graph) -> Result<Graph, AllocError>
    ensures { IfOk result (λ made. made ≡ named_graph problem.now graph.now) }
{
    let nodes = copied_nodes(alloc, graph.nodes())?;
    let edges = all_named(alloc, problem, graph)?;
    let providers = copied_providers(alloc, graph.providers())?;
    Ok(Graph::from_parts(nodes, edges, providers))
}

fn copied_nodes(alloc: Global, nodes: &[Node]) -> Result<Vec<Node>, AllocError>
    ensures { IfOk result (λ copies. copies.items ≡ nodes.now) }
{
    let mut copies = Vec::new(alloc);
    for node in nodes {
        copies.push(node.duplicate(alloc)?)?;
    }
    Ok(copies)
}

fn copied_providers(
    alloc: Global,
    providers: &[(Word, Word)],
) -> Result<Vec<(Word, Word)>, AllocError>
    ensures { IfOk result (λ copies. copies.items ≡ providers.now) }
{
    let mut copies = Vec::new(alloc);
    for provider in providers {
        copies.push(provider.duplicate(alloc)?)?;
    }
    Ok(copies)
}

fn all_named<'a>(
    alloc: Global,
    problem: &'a Problem,
    graph: &'a Graph,
) -> Result<Vec<Edge>, AllocError>
    ensures { IfOk result (λ made. made.items
        ≡ map (named_edge problem.now graph.now) graph.now.edges) }
{
    let explored = Explored::new(alloc, graph)?;
    let judge = Judge::new(alloc, problem, &explored, None);
    judge.named_edges(graph.edges())
}

impl<'a> Judge<'a> {
    fn named_edges(&self, edges: &[Edge]) -> Result<Vec<Edge>, AllocError>
        ensures { IfOk result (λ made. made.items
            ≡ map (named_edge self.now.problem self.now.graph) edges.now) }
    {
        let mut made = Vec::new(self.alloc());
        for edge in edges {
            made.push(self.named_edge(edge)?)?;
        }
        Ok(made)
    }

    fn named_edge(&self, edge: &Edge) -> Result<Edge, AllocError>
        ensures { IfOk result (λ made. made
            ≡ named_edge self.now.problem self.now.graph edge.now) }
    {
        let virtuals = self.named_from(edge)?;
        Ok(Edge {
            parent: edge.parent.duplicate(self.alloc())?,
            child: edge.child.duplicate(self.alloc())?,
            kinds: edge.kinds,
            virtuals,
        })
    }

    /// The virtuals of an edge: of one from a node to build those that the child answers, of
    /// another its own.
    fn named_from(&self, edge: &Edge) -> Result<ValueSet, AllocError>
        ensures { IfOk result (λ set. set ≡ named_from self.now.problem self.now.graph edge.now
            (node_of self.now.graph edge.now.parent)) }
    {
        match self.checks.graph().graph().node(edge.parent.as_str()) {
            Some(node) if is_built(node) => self.answered_virtuals(node, edge.child.as_str()),
            _ => edge.virtuals.duplicate(self.alloc()),
        }
    }

    fn answered_virtuals(&self, node: &Node, child: &str) -> Result<ValueSet, AllocError>
        ensures { IfOk result (λ set. set ≡ answered_virtuals self.now.problem self.now.graph
            node.now child.now) }
    {
        let rows = depends_at(self.problem(), node.name.as_str());
        let names = self.answered_names(node, child, rows)?;
        Ok(ValueSet::from_words(names))
    }

    /// The virtuals of the rows that hold and ask for the child.
    fn answered_names(
        &self,
        node: &Node,
        child: &str,
        rows: &[DependRow],
    ) -> Result<Vec<Word>, AllocError>
        ensures { IfOk result (λ names. names.items ≡ flat_map (answered self.now.problem
            self.now.graph node.now child.now) rows.now) }
    {
        let mut names = Vec::new(self.alloc());
        for row in rows {
            self.add_answered(node, child, &mut names, row)?;
        }
        Ok(names)
    }

    /// Adds the virtual of a row that holds and asks for the child, if it is on one.
    fn add_answered(
        &self,
        node: &Node,
        child: &str,
        names: &mut Vec<Word>,
        row: &DependRow,
    ) -> Result<(), AllocError>
        ensures { OnOk result (names.new.items ≡ names.old.items
            ++ answered self.now.problem self.now.graph node.now child.now row.now) }
    {
        if !is_on_virtual(self.problem(), row) {
            return Ok(());
        }
        if !self.checks.asks(node, child, row)? {
            return Ok(());
        }
        push_name(self.alloc(), names, row)
    }
}

fn is_on_virtual(problem: &Problem, row: &DependRow) -> bool
    ensures { result ≡ is_on_virtual problem.now row.now }
{
    match &row.part.name {
        Some(name) => is_virtual(problem, name.as_str()),
        None => false,
    }
}

fn is_virtual(problem: &Problem, name: &str) -> bool
    ensures { result ≡ is_virtual problem.now.recipes name.now }
{
    let world = problem.world();
    world.is_virtual(name)
}

fn push_name(alloc: Global, names: &mut Vec<Word>, row: &DependRow) -> Result<(), AllocError>
    ensures { OnOk result (names.new.items ≡ names.old.items
        ++ option_to_list row.now.part.name) }
{
    if let Some(name) = &row.part.name {
        names.push(name.duplicate(alloc)?)?;
    }
    Ok(())
}
