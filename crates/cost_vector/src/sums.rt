//! The vector.
ghost use Rattle.std.specs.Prelude.{◌≡◌, ◌++◌, ◌∷◌, IfOk, sum_by};
ghost use Rattle.graph_rules.specs.Costs.{cost_of, stopped, vector};
ghost use Rattle.cost_vector.specs.Terms.{half_cost, half_sum, half_sums};

use crate::terms::half_cost;
use condition_rules::Paths;
use graph_core::{Graph, Node};
use graph_rules::{CRITERIA, Criterion, NUMBERS, Summed};
use problem::{Explored, Problem};
use std::alloc::{AllocError, Global};

/// How many numbers a half of the vector has.
const HALF: usize = CRITERIA.len();

/// One criterion over the nodes to build, or over the others.
fn sum_over(
    alloc: Global,
    built: bool,
    criterion: Criterion,
    problem: &Problem,
    graph: &Explored,
    nodes: &[Node],
) -> Result<u64, AllocError>
    ensures { IfOk result (λ total. total
        ≡ stopped (sum_by (half_cost built (cost_of problem.now graph.now criterion)) nodes.now)) }
{
    let mut total: u64 = 0;
    for node in nodes {
        let cost = half_cost(alloc, built, criterion, problem, graph, node)?;
        total = total.saturating_add(cost);
    }
    Ok(total)
}

/// A graph, of which the nodes to build are summed over, or the others.
#[derive(Clone, Copy)]
struct Half<'a> {
    built: bool,
    problem: &'a Problem,
    graph: &'a Explored<'a>,
}

/// One criterion over this half of all nodes.
fn half_sum(alloc: Global, half: &Half, criterion: Criterion) -> Result<u64, AllocError>
    ensures { IfOk result (λ total. total ≡ half_sum half.now.built
        half.now.problem.now half.now.graph.now criterion) }
{
    let nodes = half.graph.graph().nodes();
    sum_over(
        alloc,
        half.built,
        criterion,
        half.problem,
        half.graph,
        nodes,
    )
}

/// One number for each criterion.
fn half_sums(alloc: Global, half: &Half) -> Result<[u64; HALF], AllocError>
    ensures { IfOk result (λ sums. sums ≡ half_sums half.now.built
        half.now.problem.now half.now.graph.now) }
{
    let mut sums = [0; HALF];
    for place in 0..HALF {
        sums[place] = half_sum(alloc, half, CRITERIA[place])?;
    }
    Ok(sums)
}

/// Both halves, with the number of the nodes to build between them.
fn joined(to_build: &[u64; HALF], builds: u64, others: &[u64; HALF]) -> [u64; NUMBERS]
    ensures { result ≡ to_build.now ++ builds ∷ others.now }
{
    let mut numbers = [0; NUMBERS];
    numbers[..HALF].copy_from_slice(to_build);
    numbers[HALF] = builds;
    numbers[HALF + 1..].copy_from_slice(others);
    numbers
}

/// The cost vector of a graph: the criteria over the nodes to build, the number of these nodes, and
/// the criteria over the others. A sum stops at the greatest number of 64 bits.
pub fn vector(alloc: Global, problem: &Problem, graph: &Graph) -> Result<[u64; NUMBERS], AllocError>
    ensures { IfOk result (λ numbers. numbers ≡ vector problem.now graph.now) }
{
    let explored = Explored::new(alloc, graph)?;
    let numbers = numbers_of(alloc, problem, &explored);
    drop(explored);
    numbers
}

/// The vector, over a graph of which all paths were found.
fn numbers_of(
    alloc: Global,
    problem: &Problem,
    graph: &Explored,
) -> Result<[u64; NUMBERS], AllocError>
    ensures { IfOk result (λ numbers. numbers ≡ vector problem.now graph.now) }
{
    let to_build = Half {
        built: true,
        problem,
        graph,
    };
    let others = Half {
        built: false,
        problem,
        graph,
    };
    let first = half_sums(alloc, &to_build)?;
    let builds = half_sum(alloc, &to_build, Criterion::All(Summed::Node))?;
    let last = half_sums(alloc, &others)?;
    Ok(joined(&first, builds, &last))
}
