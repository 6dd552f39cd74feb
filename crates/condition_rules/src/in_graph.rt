// What specs and conditions mean at a node of a graph.
ghost use Rattle.std.specs.Prelude.{◌≡◌, ◌&&◌, IfOk, map, option_and_then};
ghost use Rattle.std.specs.List.{list_all};
ghost use Rattle.std.specs.Option.{option_copied};
ghost use Rattle.virtuals.specs.OfGraphCore.Graphs.{Text, node_of, provider_of};
ghost use Rattle.virtuals.specs.OfGraphCore.Paths.{reaches_in};
ghost use Rattle.condition_rules.specs.Words.{is_some_and, find_last};
ghost use Rattle.condition_rules.specs.Meets.{meets};
ghost use Rattle.condition_rules.specs.Below.{suited, node_below};
ghost use Rattle.condition_rules.specs.Holds.{asked_node, suits, holds_below, holds, all_hold, governing};

use crate::at_node::{meets, meets_rest, provides};
use crate::{Definitions, Paths, World};
use std::alloc::{AllocError, Global};
use virtuals::{Condition, Graph, Node, Part, Spec, VariantRow, VersionSet};

fn provider_node<'a>(graph: &'a Graph, name: &str) -> Option<&'a Node>
    ensures { option_copied result ≡ option_and_then (node_of graph.now)
        (provider_of graph.now name.now) }
{
    match graph.provider_of(name) {
        Some(package) => graph.node(package),
        None => None,
    }
}

/// The node that a name asks for: that of the package, or the provider of the virtual.
#[tactic(auto, unfolding(crate::specs::Holds::asked_node))]
pub fn asked_node<'a>(world: &World, graph: &'a Graph, name: &str) -> Option<&'a Node>
    ensures { option_copied result ≡ asked_node world.now graph.now name.now }
{
    if world.is_virtual(name) {
        provider_node(graph, name)
    } else {
        graph.node(name)
    }
}

fn set_of(set: &Option<VersionSet>) -> Option<&VersionSet>
    ensures { option_copied result ≡ set.now }
{
    match set {
        Some(set) => Some(set),
        None => None,
    }
}

/// Whether a part of this name holds at the node that the name asks for.
#[tactic(auto, unfolding(crate::specs::Holds::suits))]
pub fn suits(world: &World, part: &Part, name: &str, node: &Node) -> bool
    ensures { result ≡ suits world.now part.now name.now node.now }
{
    if world.is_virtual(name) {
        provides(world, node, name, set_of(&part.versions)) && meets_rest(world, part, node)
    } else {
        meets(world, part, node)
    }
}

/// The node that a name asks for, where a part of this name holds there.
fn suited<'a>(world: &World, graph: &'a Graph, part: &Part, name: &str) -> Option<&'a Node>
    ensures { option_copied result ≡ suited world.now graph.now part.now name.now }
{
    match asked_node(world, graph, name) {
        Some(node) => {
            if suits(world, part, name, node) {
                Some(node)
            } else {
                None
            }
        }
        None => None,
    }
}

/// The node that a part after `^` asks for, where the part holds there.
fn node_below<'a>(world: &World, graph: &'a Graph, part: &Part) -> Option<&'a Node>
    ensures { option_copied result ≡ node_below world.now graph.now part.now }
{
    match &part.name {
        Some(name) => suited(world, graph, part, name.as_str()),
        None => None,
    }
}

/// The names of the nodes that parts after `^` ask for, where each part holds at its own.
fn names_below<'a>(
    alloc: Global,
    world: &World,
    graph: &'a Graph,
    parts: &[Part],
) -> Result<Option<Vec<&'a str>>, AllocError>
    ensures { IfOk result (λ names. (from : Text)
        → list_all (holds_below world.now graph.now from) parts.now
        ≡ is_some_and names
        (λ names. list_all (λ name. reaches_in graph.now from name.now) names.items)) }
{
    let mut names = Vec::new(alloc);
    for part in parts {
        match node_below(world, graph, part) {
            Some(node) => names.push(node.name.as_str())?,
            None => return Ok(None),
        }
    }
    Ok(Some(names))
}

fn all_below<P: Paths>(
    alloc: Global,
    world: &World,
    graph: &P,
    from: &str,
    parts: &[Part],
) -> Result<bool, AllocError>
    ensures { IfOk result (λ answer. answer
        ≡ list_all (holds_below world.now (P.graph_of graph.now) from.now) parts.now) }
{
    match names_below(alloc, world, graph.graph(), parts)? {
        Some(names) => graph.leads_to_all(alloc, from, names.as_slice()),
        None => Ok(false),
    }
}

fn top_holds<P: Paths>(world: &World, part: &Part, graph: &P, name: &str) -> bool
    ensures { result ≡ is_some_and (node_of (P.graph_of graph.now) name.now)
        (meets world.now part.now) }
{
    match graph.graph().node(name) {
        Some(node) => meets(world, part, node),
        None => false,
    }
}

/// Whether a spec holds at a node; at a name that is no node it does not.
#[tactic(auto, unfolding(crate::specs::Holds::holds))]
pub fn holds<P: Paths>(
    alloc: Global,
    world: &World,
    spec: &Spec,
    graph: &P,
    name: &str,
) -> Result<bool, AllocError>
    ensures { IfOk result (λ answer. answer ≡ holds world.now spec.now
        (P.graph_of graph.now) name.now) }
{
    if !top_holds(world, &spec.top, graph, name) {
        return Ok(false);
    }
    all_below(alloc, world, graph, name, spec.below.as_slice())
}

/// Whether each of the specs holds; none is asked behind the first that doesn't.
fn each_holds<P: Paths>(
    alloc: Global,
    world: &World,
    specs: &[Spec],
    graph: &P,
    name: &str,
) -> Result<bool, AllocError>
    ensures { IfOk result (λ answer. answer
        ≡ list_all (λ spec. holds world.now spec (P.graph_of graph.now) name.now) specs.now) }
{
    for spec in specs {
        if !holds(alloc, world, spec, graph, name)? {
            return Ok(false);
        }
    }
    Ok(true)
}

/// Whether all specs of a condition hold at a node.
#[tactic(auto, unfolding(crate::specs::Holds::all_hold))]
pub fn all_hold<P: Paths>(
    alloc: Global,
    world: &World,
    condition: &Condition,
    graph: &P,
    name: &str,
) -> Result<bool, AllocError>
    ensures { IfOk result (λ answer. answer ≡ all_hold world.now condition.now
        (P.graph_of graph.now) name.now) }
{
    each_holds(alloc, world, condition.specs.as_slice(), graph, name)
}

/// The last of the rows whose condition holds.
fn last_holding<'a, P: Paths>(
    alloc: Global,
    world: &World,
    graph: &P,
    name: &str,
    rows: &[&'a VariantRow],
) -> Result<Option<&'a VariantRow>, AllocError>
    ensures { IfOk result (λ last. option_copied last
        ≡ find_last (λ row. all_hold world.now row.when (P.graph_of graph.now) name.now)
        (map (λ row. row.now) rows.now)) }
{
    let mut last = None;
    for row in rows {
        if all_hold(alloc, world, &row.when, graph, name)? {
            last = Some(*row);
        }
    }
    Ok(last)
}

/// The last definition of a variant whose condition holds at a node.
///
/// Takes two searches in the sorted definitions, and asks the conditions of those of the variant.
#[tactic(auto, unfolding(crate::specs::Holds::governing))]
pub fn governing<'a, P: Paths>(
    alloc: Global,
    definitions: &Definitions<'a>,
    graph: &P,
    variant: &str,
) -> Result<Option<&'a VariantRow>, AllocError>
    ensures { IfOk result (λ last. option_copied last ≡ governing definitions.now.0
        (P.graph_of graph.now) definitions.now.1 variant.now) }
{
    let rows = definitions.of(alloc, variant)?;
    last_holding(
        alloc,
        definitions.world(),
        graph,
        definitions.name(),
        rows.as_slice(),
    )
}
