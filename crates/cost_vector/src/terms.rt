//! What is summed over the nodes.
ghost use Rattle.std.specs.Prelude.{◌≡◌, IfOk};
ghost use Rattle.graph_rules.specs.Costs.{cost_of, stopped, summed_cost};
ghost use Rattle.cost_vector.specs.Terms.{in_half, half_cost};

use crate::node_costs::{edges_differing, is_root, over_variants, provider_weights};
use crate::{compiler_weight, is_deprecated, os_weight, target_weight, version_weight};
use condition_rules::Paths;
use graph_core::Node;
use graph_rules::{Criterion, Summed};
use problem::{Explored, Problem, is_built};
use std::alloc::{AllocError, Global};

/// What a node adds to a sum over all nodes.
#[tactic(auto, unfolding(graph_rules::specs::Costs::summed_cost))]
fn summed_cost(
    alloc: Global,
    summed: Summed,
    problem: &Problem,
    graph: &Explored,
    node: &Node,
) -> Result<u64, AllocError>
    ensures { IfOk result (λ cost. cost
        ≡ stopped (summed_cost problem.now graph.now summed node.now)) }
{
    let name = node.name.as_str();
    let version = node.version.text();
    let variants = node.variants.as_slice();
    match summed {
        Summed::Node => Ok(1),
        Summed::Deprecated => Ok(is_deprecated(problem, name, version) as u64),
        Summed::Version => Ok(version_weight(problem, name, version) as u64),
        Summed::OtherValues => over_variants(alloc, false, problem, graph, name, variants),
        Summed::UnusedDefaults => over_variants(alloc, true, problem, graph, name, variants),
        Summed::Providers => Ok(provider_weights(problem, name, graph.graph().providers())),
        Summed::Edges(attribute) => {
            let edges = graph.graph().edges_from(name);
            Ok(edges_differing(attribute, graph, node, edges) as u64)
        }
        Summed::Os => Ok(os_weight(problem, node.os.as_str()) as u64),
        Summed::Target => Ok(target_weight(problem, node.target.as_str()) as u64),
        Summed::Compiler => Ok(compiler_weight(problem, &node.compiler) as u64),
    }
}

/// What a node adds to a criterion: at roots alone, at others alone, or at all nodes.
fn criterion_cost(
    alloc: Global,
    criterion: Criterion,
    problem: &Problem,
    graph: &Explored,
    node: &Node,
) -> Result<u64, AllocError>
    ensures { IfOk result (λ cost. cost
        ≡ stopped (cost_of problem.now graph.now criterion node.now)) }
{
    match criterion {
        Criterion::All(summed) => summed_cost(alloc, summed, problem, graph, node),
        Criterion::Roots(summed) => {
            if is_root(problem, node) {
                summed_cost(alloc, summed, problem, graph, node)
            } else {
                Ok(0)
            }
        }
        Criterion::Others(summed) => {
            if is_root(problem, node) {
                Ok(0)
            } else {
                summed_cost(alloc, summed, problem, graph, node)
            }
        }
    }
}

fn is_in_half(built: bool, node: &Node) -> bool
    ensures { result ≡ in_half built node.now }
{
    if built {
        is_built(node)
    } else {
        !is_built(node)
    }
}

/// What a node adds to a criterion over the nodes to build, or over the others.
pub(crate) fn half_cost(
    alloc: Global,
    built: bool,
    criterion: Criterion,
    problem: &Problem,
    graph: &Explored,
    node: &Node,
) -> Result<u64, AllocError>
    ensures { IfOk result (λ cost. cost
        ≡ stopped (half_cost built (cost_of problem.now graph.now criterion) node.now)) }
{
    if is_in_half(built, node) {
        criterion_cost(alloc, criterion, problem, graph, node)
    } else {
        Ok(0)
    }
}
