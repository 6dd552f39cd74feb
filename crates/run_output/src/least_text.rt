//! What is said of a least list of demands.

ghost use Rattle.std.specs.Prelude.{◌≡◌, ◌++◌, OnOk, IfOk};
ghost use Rattle.std.specs.List.{flat_map};
ghost use Rattle.run_output.specs.LeastTexts as texts;

use crate::report::write_node;
use graph_core::{Graph, Node};
use problem::Problem;
use run_answers::write_reasons;
use std::alloc::{AllocError, Global};

// Each of these that takes `out` appends a text to it, or some of it after an error.

/// A node, two spaces in.
#[tactic(auto, unfolding(crate::specs::LeastTexts::inner_line))]
fn write_inner(alloc: Global, node: &Node, out: &mut Vec<u8>) -> Result<(), AllocError>
    ensures { OnOk result (out.new.items ≡ out.old.items ++ texts.inner_line node.now) }
{
    out.extend_from_slice(b"  ")?;
    write_node(alloc, node, out)
}

#[tactic(auto, unfolding(crate::specs::LeastTexts::none_line))]
fn write_none(out: &mut Vec<u8>) -> Result<(), AllocError>
    ensures { OnOk result (out.new.items ≡ out.old.items ++ texts.none_line) }
{
    out.extend_from_slice(b"  none\n")
}

fn write_nodes(alloc: Global, nodes: &[Node], out: &mut Vec<u8>) -> Result<(), AllocError>
    ensures { OnOk result (out.new.items ≡ out.old.items ++ flat_map texts.inner_line nodes.now) }
{
    for node in nodes {
        write_inner(alloc, node, out)?;
    }
    Ok(())
}

/// The nodes of a graph, or that it has none.
fn write_below(alloc: Global, nodes: &[Node], out: &mut Vec<u8>) -> Result<(), AllocError>
    ensures { OnOk result (out.new.items ≡ out.old.items ++ texts.inner_text nodes.now) }
{
    if nodes.is_empty() {
        write_none(out)
    } else {
        write_nodes(alloc, nodes, out)
    }
}

/// The line of a demand.
fn write_demand(
    alloc: Global,
    problem: &Problem,
    demand: u64,
    out: &mut Vec<u8>,
) -> Result<(), AllocError>
    ensures { OnOk result (out.new.items ≡ out.old.items
        ++ texts.demand_text problem.now demand) }
{
    let line = write_reasons(alloc, problem, &[demand])?;
    out.extend_from_slice(line.as_slice())
}

/// Each demand, and below it the graph at its place.
pub fn least_text(
    alloc: Global,
    problem: &Problem,
    demands: &[u64],
    graphs: &[Graph],
) -> Result<Vec<u8>, AllocError>
    ensures { IfOk result (λ text. text.items
        ≡ texts.least_text problem.now demands.now graphs.now) }
{
    let mut text = Vec::new(alloc);
    for (place, demand) in demands.iter().enumerate() {
        write_demand(alloc, problem, *demand, &mut text)?;
        if let Some(graph) = graphs.get(place) {
            write_below(alloc, graph.nodes(), &mut text)?;
        }
    }
    Ok(text)
}
