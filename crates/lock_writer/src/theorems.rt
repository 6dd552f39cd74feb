//! What holds of all hashes.
ghost use Rattle.std.specs.Prelude.{◌≡◌, ℕ, Some};
ghost use Rattle.reachability.specs.Paths.{IsAcyclic};
ghost use Rattle.graph_core.specs.Graphs.{Text, Content, IsGraph, node_of};
ghost use Rattle.graph_core.specs.Paths.{JoinedIn};
ghost use Rattle.graph_core.specs.declared.node.Node.{Node};
ghost use Rattle.lock_writer.specs.Hashes.{node_hash, hash_over};

/// Where a graph has no cycle, each node has the hash that the hashes of its children give it.
pub fn hash_laws()
    ensures over { (g : Content) (name : Text) (node : Node) → IsGraph g → IsAcyclic (JoinedIn g)
        → node_of g name ≡ Some node → node_hash g name ≡ hash_over g (node_hash g) node }
{}
