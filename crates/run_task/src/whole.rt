//! What each graph is, whatever it was made of.

ghost use Rattle.std.specs.Prelude.{All};
ghost use Rattle.variant_values.specs.Texts.{IsInByteOrder};
ghost use Rattle.problem.specs.Nodes.{IsWellFormed};

use graph_core::{Edge, Graph, Node};
use plain_data::Word;
use variant_values::ValueSet;

fn are_sets(variants: &[(Word, ValueSet)])
    ensures { All (λ v. IsInByteOrder v.1) variants.now }
{
    for variant in variants {
        let _ = variant.1.values();
    }
}

fn have_sets(nodes: &[Node])
    ensures { All (λ node. All (λ v. IsInByteOrder v.1) node.variants) nodes.now }
{
    for node in nodes {
        are_sets(node.variants.as_slice());
    }
}

fn name_sets(edges: &[Edge])
    ensures { All (λ edge. IsInByteOrder edge.virtuals) edges.now }
{
    for edge in edges {
        let _ = edge.virtuals.values();
    }
}

/// A graph is well-formed, as every value of its type.
pub(crate) fn whole(graph: &Graph)
    ensures { IsWellFormed graph.now }
{
    have_sets(graph.nodes());
    name_sets(graph.edges());
}
