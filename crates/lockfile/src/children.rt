//! The children of nodes.
ghost use Rattle.std.specs.Prelude.{◌≡◌, ◌++◌, Some, map, filter, IfOk, OnOk};
ghost use Rattle.lockfile.specs.Children.{all_edges, locked_children, locked_edge, edges_of, is_link_or_run};
ghost use Rattle.lockfile.specs.Children.{named_by, without_build};
ghost use Rattle.lockfile.specs.Named.{AreNames};

use crate::names::name_in;
use crate::node::LockedNode;
use graph_core::{Edge, Kinds, Origin};
use plain_data::{Duplicate, List, Word};
use reuse_db::Dependency;
use std::alloc::{AllocError, Global};
use std::collections::BTreeMap;

/// What a node has edges to: of its dependencies, an installed node those to link or run.
pub(crate) fn children_of(alloc: Global, node: &LockedNode) -> Result<List<Dependency>, AllocError>
    ensures { IfOk result (λ list. list ≡ locked_children node.now) }
{
    let dependencies = node.described.dependencies.as_slice();
    match node.origin {
        Origin::Installed(_) => needed(alloc, dependencies),
        _ => all(alloc, dependencies),
    }
}

fn all(alloc: Global, dependencies: &[Dependency]) -> Result<List<Dependency>, AllocError>
    ensures { IfOk result (λ list. list ≡ dependencies.now) }
{
    let mut list = List::new(alloc);
    for dependency in dependencies {
        list.push(copy_of(alloc, dependency, dependency.kinds)?)?;
    }
    Ok(list)
}

/// The children that an installed node has edges to, without `build`.
fn needed(alloc: Global, dependencies: &[Dependency]) -> Result<List<Dependency>, AllocError>
    ensures { IfOk result (λ list. list
        ≡ map without_build (filter is_link_or_run dependencies.now)) }
{
    let mut list = List::new(alloc);
    for dependency in dependencies {
        if is_needed(dependency) {
            list.push(without_build(alloc, dependency)?)?;
        }
    }
    Ok(list)
}

fn is_needed(dependency: &Dependency) -> bool
    ensures { result ≡ is_link_or_run dependency.now }
{
    dependency.kinds.link || dependency.kinds.run
}

/// A dependency as an edge from an installed node.
fn without_build(alloc: Global, dependency: &Dependency) -> Result<Dependency, AllocError>
    ensures { IfOk result (λ made. made ≡ without_build dependency.now) }
{
    let kinds = Kinds {
        build: false,
        link: dependency.kinds.link,
        run: dependency.kinds.run,
    };
    copy_of(alloc, dependency, kinds)
}

/// A dependency, for these kinds.
fn copy_of(alloc: Global, dependency: &Dependency, kinds: Kinds) -> Result<Dependency, AllocError>
    ensures { IfOk result (λ made. made ≡ record dependency.now { kinds = kinds }) }
{
    Ok(Dependency {
        hash: dependency.hash,
        kinds,
        virtuals: dependency.virtuals.duplicate(alloc)?,
    })
}

/// The edges from all nodes to their children.
pub(crate) fn all_edges(
    alloc: Global,
    nodes: &[LockedNode],
    names: &BTreeMap<String, Word>,
) -> Result<Vec<Edge>, AllocError>
    requires { AreNames nodes.now names.now }
    ensures { IfOk result (λ edges. edges.items ≡ all_edges nodes.now nodes.now) }
{
    let mut edges = Vec::new(alloc);
    for node in nodes {
        push_edges(alloc, nodes, node, names, &mut edges)?;
    }
    Ok(edges)
}

/// Adds the edges from one node; a child that is no node adds none.
fn push_edges(
    alloc: Global,
    nodes: &[LockedNode],
    node: &LockedNode,
    names: &BTreeMap<String, Word>,
    edges: &mut Vec<Edge>,
) -> Result<(), AllocError>
    requires { AreNames nodes.now names.now }
    ensures { OnOk result (edges.new.items ≡ edges.old.items ++ edges_of nodes.now node.now) }
{
    let children = children_of(alloc, node)?;
    for child in children.as_slice() {
        if let Some(name) = name_in(names, child.hash.as_str()) {
            edges.push(edge_to(alloc, node, child, name)?)?;
        }
    }
    Ok(())
}

fn edge_to(
    alloc: Global,
    node: &LockedNode,
    child: &Dependency,
    name: &Word,
) -> Result<Edge, AllocError>
    ensures { IfOk result (λ edge. Some edge ≡ locked_edge node.now.described.name child.now
        (Some name.now)) }
{
    Ok(Edge {
        parent: node.described.name.duplicate(alloc)?,
        child: name.duplicate(alloc)?,
        kinds: child.kinds,
        virtuals: child.virtuals.duplicate(alloc)?,
    })
}
