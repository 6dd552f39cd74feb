//! Paths of a graph.
ghost use Rattle.std.specs.Prelude.{◌≡◌, map, IfOk};
ghost use Rattle.keyed_lists.specs.OfReachability.Places.{AreNumbered, IsAt};
ghost use Rattle.graph_core.specs.Graphs.{HasNode, name_of};
ghost use Rattle.graph_core.specs.Paths.{arcs_of, reaches_in};

use crate::Graph;
use keyed_lists::{heads_of, reached};
use std::alloc::{AllocError, Global};

/// Whether a path of one or more edges leads from one node to another.
///
/// Follows each edge once at most, and takes memory for all edges: `Reach` finds all paths at once.
pub fn reaches(alloc: Global, graph: &Graph, from: &str, to: &str) -> Result<bool, AllocError>
    ensures { IfOk result (λ is. is ≡ reaches_in graph.now from.now to.now) }
{
    let Ok(start) = graph.node_place(from) else {
        return Ok(false);
    };
    let Ok(end) = graph.node_place(to) else {
        return Ok(false);
    };
    let arcs = numbered(alloc, graph)?;
    let heads = heads_of(alloc, graph.nodes().len(), arcs.as_slice())?;
    let marks = reached(alloc, heads.as_slice(), start)?;
    Ok(marks.get(end))
}

/// The places of the ends of each edge.
pub(crate) fn numbered(alloc: Global, graph: &Graph) -> Result<Vec<(usize, usize)>, AllocError>
    ensures { IfOk result (λ numbers. AreNumbered (map name_of graph.now.nodes) (arcs_of graph.now)
        numbers.items) }
{
    let mut numbers = Vec::new(alloc);
    for edge in graph.edges() {
        let parent = known_place(graph, edge.parent.as_str());
        let child = known_place(graph, edge.child.as_str());
        numbers.push((parent, child))?;
    }
    Ok(numbers)
}

/// The place of a node that is there, from 0, in the order of the nodes.
pub fn known_place(graph: &Graph, name: &str) -> usize
    requires { HasNode graph.now name.now }
    ensures { IsAt (map name_of graph.now.nodes) name.now result }
{
    match graph.node_place(name) {
        Ok(place) => place,
        Err(_) => unreachable!(),
    }
}
