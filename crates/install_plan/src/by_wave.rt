// The names of each wave.
ghost use Rattle.std.specs.Prelude.{◌≡◌, ◌<◌, ◌≤◌, ◌∷◌, ◌++◌, [], All, length, replicate, IfOk, OnOk, slice_set};
ghost use Rattle.install_plan.specs.Schedules.{wave_at};
ghost use Rattle.install_plan.specs.Children.{built_of, wave_in, IsGreatest, AreByNumber};

use graph_core::{Graph, is_built};
use plain_data::{Duplicate, List, Word};
use std::alloc::{AllocError, Global};

/// The names of the nodes to build: those of each number from 1 on, in the order of the nodes.
///
/// `numbers` has one for each node.
pub(crate) fn by_wave(
    alloc: Global,
    graph: &Graph,
    numbers: &[usize],
) -> Result<Vec<List<Word>>, AllocError>
    requires each { length numbers.now ≡ length graph.now.nodes }
    requires some { All (λ number. 1 ≤ number) numbers.now }
    ensures { IfOk result (λ waves. AreByNumber graph.now (wave_in graph.now numbers.now)
        waves.items) }
{
    let nodes = graph.nodes();
    let count = greatest_built(graph, numbers);
    let mut waves = no_names(alloc, count)?;
    for place in 0..nodes.len() {
        if is_built(&nodes[place]) {
            add_name(alloc, &mut waves, numbers[place] - 1, &nodes[place].name)?;
        }
    }
    Ok(waves)
}

/// Adds a name to the wave at a place.
fn add_name(
    alloc: Global,
    waves: &mut Vec<List<Word>>,
    place: usize,
    name: &Word,
) -> Result<(), AllocError>
    requires { place < length waves.old.items }
    ensures { OnOk result (waves.new.items ≡ slice_set waves.old.items place
        (wave_at waves.old.items place ++ name.now ∷ [])) }
{
    let wave = &mut waves[place];
    wave.push(name.duplicate(alloc)?)?;
    Ok(())
}

fn no_names(alloc: Global, count: usize) -> Result<Vec<List<Word>>, AllocError>
    ensures { IfOk result (λ waves. waves.items ≡ replicate count []) }
{
    let mut waves = Vec::new(alloc);
    for _ in 0..count {
        waves.push(List::new(alloc))?;
    }
    Ok(waves)
}

/// The greatest number of a node to build; 0 where there is none.
fn greatest_built(graph: &Graph, numbers: &[usize]) -> usize
    requires { length numbers.now ≡ length graph.now.nodes }
    ensures { IsGreatest (wave_in graph.now numbers.now) (built_of graph.now.nodes) result }
{
    let nodes = graph.nodes();
    let mut greatest = 0;
    for place in 0..nodes.len() {
        if is_built(&nodes[place]) && numbers[place] > greatest {
            greatest = numbers[place];
        }
    }
    greatest
}
