// One search for the paths from a node to all that it leads to.
ghost use Rattle.std.specs.Prelude.{◌≡◌, map, IfOk};
ghost use Rattle.virtuals.specs.OfReachability.Places.{AreNumbered, IsAt};
ghost use Rattle.virtuals.specs.OfGraphCore.Graphs.{HasNode, name_of};
ghost use Rattle.virtuals.specs.OfGraphCore.Paths.{arcs_of, reaches_in};
ghost use Rattle.condition_rules.specs.Below.{AreBelow};

use std::alloc::{AllocError, Global};
use std::marker::Model;
use virtuals::{Bits, Graph, heads_of, reached};

/// A name and a graph, with a mark for each node that a path of one or more edges leads to from
/// there.
#[derive(Drop)]
pub(crate) struct Below<'a> {
    graph: &'a Graph,
    from: &'a str,
    marks: Bits,
}

impl<'a> Model for Below<'a> {
    ghost use Rattle.virtuals.specs.OfGraphCore.Graphs.{Text, Content};
    ghost use Rattle.condition_rules.specs.Below.{AreBelow};

    ghost Value = { Content × Text };

    ghost view = { λ below. (below.graph.now, below.from.now) };

    ghost invariant = { λ below. AreBelow below.graph.now below.from.now below.marks };
}

impl<'a> Below<'a> {
    /// Follows each edge once at most.
    pub(crate) fn new(
        alloc: Global,
        graph: &'a Graph,
        from: &'a str,
    ) -> Result<Below<'a>, AllocError>
        ensures { IfOk result (λ below. below ≡ (graph.now, from.now)) }
    {
        let marks = marks_below(alloc, graph, from)?;
        Ok(Below { graph, from, marks })
    }

    /// Whether a path of one or more edges leads there.
    pub(crate) fn leads_to(&self, name: &str) -> bool
        ensures { result ≡ reaches_in self.now.0 self.now.1 name.now }
    {
        match self.graph.node_place(name) {
            Ok(place) => self.marks.get(place),
            Err(_) => false,
        }
    }
}

/// A mark for each node that paths from a node lead to; none where the name is no node.
fn marks_below(alloc: Global, graph: &Graph, from: &str) -> Result<Bits, AllocError>
    ensures { IfOk result (λ marks. AreBelow graph.now from.now marks) }
{
    let places = graph.nodes().len();
    let Ok(start) = graph.node_place(from) else {
        return Bits::new(alloc, places);
    };
    let arcs = numbered(alloc, graph)?;
    let heads = heads_of(alloc, places, arcs.as_slice())?;
    reached(alloc, heads.as_slice(), start)
}

/// The places of the ends of each edge.
fn numbered(alloc: Global, graph: &Graph) -> Result<Vec<(usize, usize)>, AllocError>
    ensures { IfOk result (λ numbers. AreNumbered (map name_of graph.now.nodes)
        (arcs_of graph.now) numbers.items) }
{
    let mut numbers = Vec::new(alloc);
    let mut last = 0;
    for edge in graph.edges() {
        // Edges are in order of their parents, so most have the last one's.
        let parent = place_near(graph, last, edge.parent.as_str());
        let child = known_place(graph, edge.child.as_str());
        numbers.push((parent, child))?;
        last = parent;
    }
    Ok(numbers)
}

// The place of a node that is there, and may be at this one.
fn place_near(graph: &Graph, guess: usize, name: &str) -> usize
    requires { HasNode graph.now name.now }
    ensures { IsAt (map name_of graph.now.nodes) name.now result }
{
    let nodes = graph.nodes();
    if guess < nodes.len() && nodes[guess].name.as_str() == name {
        guess
    } else {
        known_place(graph, name)
    }
}

// The place of a node that is there.
fn known_place(graph: &Graph, name: &str) -> usize
    requires { HasNode graph.now name.now }
    ensures { IsAt (map name_of graph.now.nodes) name.now result }
{
    match graph.node_place(name) {
        Ok(place) => place,
        Err(_) => unreachable!(),
    }
}
