// The children to build of each node to build.
ghost use Rattle.std.specs.Prelude.{◌≡◌, ◌↔◌, IfOk, OnOk, IsTrue};
ghost use Rattle.graph_core.specs.OfReachability.Places.{AreWithin};
ghost use Rattle.graph_core.specs.Graphs.{IsGraph, is_built};
ghost use Rattle.install_plan.specs.Schedules.{IsBuilt};
ghost use Rattle.install_plan.specs.Children.{AreBuiltArcs, AreBuiltChildren};

use graph_core::{Edge, Graph, heads_of, is_built, known_place};
use plain_data::List;
use std::alloc::{AllocError, Global};

/// For each node the places of its children that are to be built; none where it is not to be built itself.
pub(crate) fn built_children(alloc: Global, graph: &Graph) -> Result<Vec<List<usize>>, AllocError>
    ensures children { IfOk result (λ heads. AreBuiltChildren graph.now heads.items) }
    ensures within { IfOk result (λ heads. AreWithin heads.items) }
    ensures graph { OnOk result (IsGraph graph.now) }
{
    let arcs = built_arcs(alloc, graph)?;
    heads_of(alloc, graph.nodes().len(), arcs.as_slice())
}

/// The places of the ends of each edge between nodes to build.
fn built_arcs(alloc: Global, graph: &Graph) -> Result<Vec<(usize, usize)>, AllocError>
    ensures { IfOk result (λ arcs. AreBuiltArcs graph.now graph.now.edges arcs.items) }
{
    let mut arcs = Vec::new(alloc);
    for edge in graph.edges() {
        if joins_built(graph, edge) {
            let parent = known_place(graph, edge.parent.as_str());
            let child = known_place(graph, edge.child.as_str());
            arcs.push((parent, child))?;
        }
    }
    Ok(arcs)
}

/// Whether both ends of an edge are to be built.
fn joins_built(graph: &Graph, edge: &Edge) -> bool
    ensures { IsTrue result ↔ (IsBuilt graph.now edge.now.parent
        × IsBuilt graph.now edge.now.child) }
{
    is_to_build(graph, edge.parent.as_str()) && is_to_build(graph, edge.child.as_str())
}

fn is_to_build(graph: &Graph, name: &str) -> bool
    ensures { IsTrue result ↔ IsBuilt graph.now name.now }
{
    match graph.node_place(name) {
        Ok(place) => is_built(&graph.nodes()[place]),
        Err(_) => false,
    }
}
