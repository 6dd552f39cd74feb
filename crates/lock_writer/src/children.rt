//! The places of each node's children.
ghost use Rattle.std.specs.Prelude.{All, IfOk};
ghost use Rattle.std.specs.List.{AllZip};
ghost use Rattle.graph_core.specs.Graphs.{HasNode, edges_from};
ghost use Rattle.lock_writer.specs.Known.{AreChildren};

use graph_core::{Edge, Graph, known_place};
use plain_data::List;
use std::alloc::{AllocError, Global};

/// For each node the places of its children, in the order of its edges.
pub(crate) fn children_of(alloc: Global, graph: &Graph) -> Result<Vec<List<usize>>, AllocError>
    ensures { IfOk result (λ children. AllZip
        (λ node places. AreChildren graph.now (edges_from graph.now node.name) places)
        graph.now.nodes children.items) }
{
    let mut children = Vec::new(alloc);
    for node in graph.nodes() {
        let edges = graph.edges_from(node.name.as_str());
        children.push(places_of(alloc, graph, edges)?)?;
    }
    Ok(children)
}

fn places_of(alloc: Global, graph: &Graph, edges: &[Edge]) -> Result<List<usize>, AllocError>
    requires { All (λ edge. HasNode graph.now edge.child) edges.now }
    ensures { IfOk result (AreChildren graph.now edges.now) }
{
    let mut places = List::new(alloc);
    for edge in edges {
        places.push(known_place(graph, edge.child.as_str()))?;
    }
    Ok(places)
}
