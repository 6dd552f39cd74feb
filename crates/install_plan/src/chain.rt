// A chain of nodes to build, one of each wave.
ghost use Rattle.std.specs.Prelude.{◌↔◌, IfOk, IsTrue, Contains};
ghost use Rattle.std.specs.Option.{option_copied};
ghost use Rattle.install_plan.specs.Chains.{IsChain, IsLeast, MayComeBelow};
ghost use Rattle.install_plan.specs.Steps.{GoDown, HasNext};

use graph_core::Graph;
use plain_data::{Duplicate, List, Word};
use std::alloc::{AllocError, Global};

/// A chain down these waves: it starts with the least name of the last one, and goes on with the least child in the
/// wave before.
pub(crate) fn chain_of(
    alloc: Global,
    graph: &Graph,
    waves: &[List<Word>],
) -> Result<List<Word>, AllocError>
    requires { GoDown graph.now waves.now }
    ensures { IfOk result (λ chain. IsChain graph.now waves.now chain) }
{
    let mut chain = List::new(alloc);
    let mut above = None;
    for done in 0..waves.len() {
        let wave = waves[waves.len() - 1 - done].as_slice();
        let name = next_name(graph, above, wave);
        chain.push(name.duplicate(alloc)?)?;
        above = Some(name);
    }
    Ok(chain)
}

/// The least of these names that may follow the one before it.
fn next_name<'a>(graph: &Graph, above: Option<&Word>, names: &'a [Word]) -> &'a Word
    requires { HasNext graph.now (option_copied above) names.now }
    ensures { IsLeast (λ x. Contains names.now x
        × MayComeBelow graph.now (option_copied above.entry) x) result.now }
{
    for name in names {
        if may_come_below(graph, above, name.as_str()) {
            return name;
        }
    }
    unreachable!()
}

fn may_come_below(graph: &Graph, above: Option<&Word>, name: &str) -> bool
    ensures { IsTrue result ↔ MayComeBelow graph.now (option_copied above.entry) name.now }
{
    match above {
        Some(parent) => graph.edge(parent.as_str(), name).is_some(),
        None => true,
    }
}
