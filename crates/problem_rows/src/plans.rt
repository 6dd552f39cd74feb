//! Rows of plans.
//!
//! The items are those of `graphs`, and `!NAME` is a node that is installed. The names of each wave
//! are answered, and those of the chain; or `cycle`.

ghost use Rattle.std.specs.Prelude.{◌≡◌, IsTrue};
ghost use Rattle.graph_core.specs.OfReachability.Paths.{IsAcyclic};
ghost use Rattle.graph_core.specs.Paths.{JoinedIn};

use crate::graphs;
use crate::nodes::plain_node;
use crate::show::push_word;
use graph_core::{Graph, Node, Origin, Reach};
use install_plan::{Plan, waves};
use plain_data::Word;
use spec_hash::hash_text;
use std::alloc::{AllocError, Global};
use version_order::{Version, VersionFault};

/// The plan of the graph of these items.
pub(crate) fn answer(alloc: Global, text: &mut String, items: &[&str]) -> Result<(), AllocError> {
    let mut graph = Graph::new(alloc);
    let answered = answer_over(alloc, text, &mut graph, items);
    drop(graph);
    answered
}

fn answer_over(
    alloc: Global,
    text: &mut String,
    graph: &mut Graph,
    items: &[&str],
) -> Result<(), AllocError> {
    for item in items {
        put(alloc, graph, item)?;
    }
    let reach = Reach::new(alloc, graph)?;
    let is_planned = has_no_cycle(graph, &reach);
    drop(reach);
    if is_planned {
        push_plan(text, waves(alloc, graph)?)
    } else {
        text.push_str("cycle")
    }
}

fn put(alloc: Global, graph: &mut Graph, item: &str) -> Result<(), AllocError> {
    match item.strip_prefix("!") {
        Some(name) => {
            if let Some(node) = installed(alloc, name)? {
                graph.add_node(node)?;
            }
        }
        None => {
            graphs::put(alloc, graph, item)?;
        }
    }
    Ok(())
}

fn installed(alloc: Global, name: &str) -> Result<Option<Node>, AllocError> {
    let version = match Version::read(alloc, "1.0") {
        Ok(version) => version,
        Err(VersionFault::OutOfMemory) => return Err(AllocError),
        Err(_) => return Ok(None),
    };
    let mut node = plain_node(alloc, name, version)?;
    node.origin = Origin::Installed(hash_text(name.as_bytes()));
    Ok(Some(node))
}

fn has_no_cycle(graph: &Graph, reach: &Reach) -> bool
    requires { reach.now ≡ graph.now }
    ensures { IsTrue result → IsAcyclic (JoinedIn graph.now) }
{
    for node in graph.nodes() {
        let name = node.name.as_str();
        if reach.leads(name, name) {
            return false;
        }
    }
    true
}

fn push_names(text: &mut String, names: &[Word]) -> Result<(), AllocError> {
    for name in names {
        push_word(text, name.as_str())?;
    }
    Ok(())
}

fn push_plan(text: &mut String, plan: Plan) -> Result<(), AllocError> {
    for names in plan.waves.as_slice() {
        text.push_str("wave")?;
        push_names(text, names.as_slice())?;
        text.push_str(" | ")?;
    }
    text.push_str("chain")?;
    push_names(text, plan.chain.as_slice())
}
