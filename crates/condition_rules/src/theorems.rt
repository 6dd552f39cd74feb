// What holds of conditions. The bodies are empty: what is proved are the contracts.
ghost use Rattle.std.specs.Prelude.{◌≡◌, List, [], Some};
ghost use Rattle.std.specs.List.Sorted.{IsPermutation};
ghost use Rattle.virtuals.specs.OfGraphCore.Graphs.{Text, Content, node_of};
ghost use Rattle.virtuals.specs.OfGraphCore.Node.{Node};
ghost use Rattle.virtuals.specs.OfConditions.Spec.{Spec};
ghost use Rattle.condition_rules.specs.Worlds.{World};
ghost use Rattle.condition_rules.specs.Meets.{meets};
ghost use Rattle.condition_rules.specs.Holds.{holds, all_hold};

/// A spec without parts after `^` holds at a node where its top part does. So a condition of
/// `provides`, which has no such part, may speak of the node alone. Specs hold together in any
/// order.
pub fn condition_laws()
    ensures alone { (world : World) (spec : Spec) (graph : Content) (name : Text) (node : Node)
        → spec.below ≡ [] → node_of graph name ≡ Some node
        → holds world spec graph name ≡ meets world spec.top node }
    ensures any_order { (world : World) (specs others : List Spec) (graph : Content) (name : Text)
        → IsPermutation specs others
        → all_hold world (record { specs = specs }) graph name
        ≡ all_hold world (record { specs = others }) graph name }
{}
