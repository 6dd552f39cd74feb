//! What holds of all valid graphs. What is proved is the contract.
ghost use Rattle.std.specs.Prelude.{◌≡◌, true, Contains};
ghost use Rattle.graph_core.specs.Graphs.{Content};
ghost use Rattle.graph_core.specs.declared.node.Node.{Node};
ghost use Rattle.lock_writer.specs.Hashes.{node_hash};
ghost use Rattle.lockfile.specs.Writable.{IsWritable};
ghost use Rattle.problem.specs.Nodes.{IsWellFormed};
ghost use Rattle.problem.specs.Problems.{Problem};
ghost use Rattle.graph_rules.specs.Valid.{valid};
ghost use Rattle.lock_laws.specs.Forms.{IsFormedProblem};

use lock_writer::hash_laws;

/// A valid graph is read again as itself, where no two of its nodes have one hash and the texts of
/// its problem have their forms, as those of files that were read.
pub fn writable_laws()
    ensures { (problem : Problem) (graph : Content) → IsFormedProblem problem → IsWellFormed graph
        → valid problem graph ≡ true
        → ((a b : Node) → Contains graph.nodes a → Contains graph.nodes b
        → node_hash graph a.name ≡ node_hash graph b.name → a ≡ b)
        → IsWritable graph problem.database }
{
    hash_laws();
}
