//! What one node costs: sums stop at the greatest number of 64 bits.
ghost use Rattle.std.specs.Prelude.{◌≡◌, IfOk, count_by, not, sum_by};
ghost use Rattle.std.specs.List.{list_any};
ghost use Rattle.std.specs.Option.{option_copied};
ghost use Rattle.std.specs.Str.{bytes_eq};
ghost use Rattle.graph_core.specs.Graphs.{node_of};
ghost use Rattle.condition_rules.specs.Words.{is_one_text, is_some_and};
ghost use Rattle.condition_rules.specs.Holds.{governing};
ghost use Rattle.problem.specs.Problems.{same_compiler};
ghost use Rattle.graph_rules.specs.Costs.{beside_default, differs, is_root, missing, stopped};
ghost use Rattle.cost_vector.specs.Terms.{beside, variant_cost, weight_at, edge_differs};

use crate::provider_weight;
use condition_rules::{Definitions, Paths, governing};
use graph_core::{Compiler, Edge, Node};
use graph_rules::Attribute;
use plain_data::Word;
use problem::{Explored, Problem, same_compiler};
use recipe_data::VariantRow;
use spec_grammar::Spec;
use std::alloc::{AllocError, Global};
use variant_values::ValueSet;

// ---- roots

fn is_named(spec: &Spec, name: &str) -> bool
    ensures { result ≡ is_some_and spec.now.top.name (bytes_eq name.now) }
{
    match &spec.top.name {
        Some(root) => name == root.as_str(),
        None => false,
    }
}

/// Whether a requested spec has its name.
pub(crate) fn is_root(problem: &Problem, node: &Node) -> bool
    ensures { result ≡ is_root problem.now node.now }
{
    problem
        .roots()
        .iter()
        .any(|spec| is_named(spec, node.name.as_str()))
}

// ---- variants

fn among(texts: &[Word], text: &str) -> bool
    ensures { result ≡ is_one_text texts.now text.now }
{
    texts.iter().any(|other| text == other.as_str())
}

fn missing(texts: &[Word], others: &[Word]) -> usize
    ensures { result ≡ missing texts.now others.now }
{
    texts
        .iter()
        .filter(|text| !among(others, text.as_str()))
        .count()
}

// The values that are no default values, or the default values that are not used.
fn beside(defaults: bool, values: &ValueSet, row: &VariantRow) -> usize
    ensures { result ≡ beside defaults values.now row.now.default }
{
    if defaults {
        missing(row.default.values(), values.values())
    } else {
        missing(values.values(), row.default.values())
    }
}

fn variant_cost(
    alloc: Global,
    defaults: bool,
    definitions: &Definitions,
    graph: &Explored,
    variant: &(Word, ValueSet),
) -> Result<usize, AllocError>
    ensures { IfOk result (λ count. count ≡ beside_default (beside defaults) variant.now.1
        (governing definitions.now.0 graph.now definitions.now.1 variant.now.0)) }
{
    match governing(alloc, definitions, graph, variant.0.as_str())? {
        Some(row) => Ok(beside(defaults, &variant.1, row)),
        None => Ok(0),
    }
}

/// What all variants of a node cost, by their default values or by the others.
///
/// Takes n log n comparisons for n definitions and variants.
pub(crate) fn over_variants(
    alloc: Global,
    defaults: bool,
    problem: &Problem,
    graph: &Explored,
    name: &str,
    variants: &[(Word, ValueSet)],
) -> Result<u64, AllocError>
    ensures { IfOk result (λ total. total
        ≡ stopped (sum_by (variant_cost defaults problem.now graph.now name.now) variants.now)) }
{
    let definitions = Definitions::new(alloc, problem.world(), name)?;
    let mut total: u64 = 0;
    for variant in variants {
        let count = variant_cost(alloc, defaults, &definitions, graph, variant)?;
        total = total.saturating_add(count as u64);
    }
    Ok(total)
}

// ---- providers

fn weight_at(problem: &Problem, name: &str, p: &(Word, Word)) -> usize
    ensures { result ≡ weight_at problem.now name.now p.now }
{
    if p.1.as_str() == name {
        provider_weight(problem, p.0.as_str(), p.1.as_str())
    } else {
        0
    }
}

pub(crate) fn provider_weights(problem: &Problem, name: &str, providers: &[(Word, Word)]) -> u64
    ensures { result ≡ stopped (sum_by (weight_at problem.now name.now) providers.now) }
{
    let mut total: u64 = 0;
    for p in providers {
        total = total.saturating_add(weight_at(problem, name, p) as u64);
    }
    total
}

// ---- edges

fn differ_in_compiler(a: &Option<Compiler>, b: &Option<Compiler>) -> bool
    ensures { result ≡ is_some_and a.now (λ c. is_some_and b.now (λ d. not (same_compiler c d))) }
{
    match (a, b) {
        (Some(a), Some(b)) => !same_compiler(a, b),
        (Some(_), None) => false,
        (None, _) => false,
    }
}

fn differs(attribute: Attribute, a: &Node, b: &Node) -> bool
    ensures { result ≡ differs attribute a.now b.now }
{
    match attribute {
        Attribute::Compiler => differ_in_compiler(&a.compiler, &b.compiler),
        Attribute::Os => !(a.os.as_str() == b.os.as_str()),
        Attribute::Target => !(a.target.as_str() == b.target.as_str()),
    }
}

fn edge_differs(attribute: Attribute, graph: &Explored, node: &Node, edge: &Edge) -> bool
    ensures { result ≡ edge_differs attribute graph.now node.now edge.now }
{
    match graph.graph().node(edge.child.as_str()) {
        Some(child) => differs(attribute, node, child),
        None => false,
    }
}

/// How many of its edges go to a node that differs from it.
pub(crate) fn edges_differing(
    attribute: Attribute,
    graph: &Explored,
    node: &Node,
    edges: &[Edge],
) -> usize
    ensures { result ≡ count_by (edge_differs attribute graph.now node.now) edges.now }
{
    edges
        .iter()
        .filter(|edge| edge_differs(attribute, graph, node, edge))
        .count()
}
