//! What the node of a block adds to each criterion.
ghost use Rattle.std.specs.Prelude.{◌≡◌, IfOk};
ghost use Rattle.std.specs.Str.{bytes_eq};
ghost use Rattle.condition_rules.specs.Words.{is_some_and};
ghost use Rattle.cost_terms.specs.Terms.{is_root_name, presence_terms, provider_terms, compared, edges_terms};
ghost use Rattle.cost_terms.specs.Terms.{over_variants_terms, summed_terms, terms_of};
ghost use Rattle.term_builder.specs.VariantTerms.{counted_terms};
ghost use Rattle.term_builder.specs.Held.{held_in};

use crate::held::conditions_at;
use crate::{Counted, push_edges, push_providers, push_variants};
use clause_formulas::{Defined, Formula};
use cost_terms::{
    Weighted, compiler_terms, deprecated_terms, os_terms, target_terms, version_terms,
};
use graph_rules::{Attribute, Criterion, Summed};
use literal_table::{Block, LiteralTable};
use plain_data::{List, Word};
use problem::Problem;
use spec_grammar::Spec;
use std::alloc::{AllocError, Global};

// ---- roots

fn is_named(spec: &Spec, name: &str) -> bool
    ensures { result ≡ is_some_and spec.now.top.name (bytes_eq name.now) }
{
    match &spec.top.name {
        Some(root) => name == root.as_str(),
        None => false,
    }
}

// Whether a requested spec has the name.
fn is_root_name(problem: &Problem, name: &str) -> bool
    ensures { result ≡ is_root_name problem.now name.now }
{
    problem.roots().iter().any(|spec| is_named(spec, name))
}

// ---- what is summed

// One for the node.
fn presence_terms(alloc: Global, block: &Block) -> Result<Vec<Weighted>, AllocError>
    ensures { IfOk result (λ terms. terms.items ≡ presence_terms block.now) }
{
    let mut terms = Vec::new(alloc);
    terms.push(Weighted {
        weight: 1,
        formula: Formula::lit(block.present),
    })?;
    Ok(terms)
}

fn variant_terms(
    alloc: Global,
    which: Counted,
    problem: &Problem,
    held: &[(Word, List<Defined>)],
    block: &Block,
) -> Result<Vec<Weighted>, AllocError>
    ensures { IfOk result (λ terms. terms.items
        ≡ over_variants_terms (counted_terms which) problem.now (held_in held.now) block.now) }
{
    let mut terms = Vec::new(alloc);
    let conditions = conditions_at(held, block.name.as_str());
    push_variants(alloc, &mut terms, which, problem, conditions, block)?;
    Ok(terms)
}

fn provider_terms(
    alloc: Global,
    problem: &Problem,
    table: &LiteralTable,
    block: &Block,
) -> Result<Vec<Weighted>, AllocError>
    ensures { IfOk result (λ terms. terms.items
        ≡ provider_terms problem.now table.now block.now) }
{
    let mut terms = Vec::new(alloc);
    push_providers(&mut terms, problem, table, block)?;
    Ok(terms)
}

fn edge_terms(
    alloc: Global,
    attribute: Attribute,
    table: &LiteralTable,
    block: &Block,
) -> Result<Vec<Weighted>, AllocError>
    ensures { IfOk result (λ terms. terms.items
        ≡ edges_terms (compared attribute) table.now block.now) }
{
    let mut terms = Vec::new(alloc);
    push_edges(alloc, &mut terms, attribute, table, block)?;
    Ok(terms)
}

// What the node adds to one sum, wherever it stands.
#[tactic(auto, unfolding(cost_terms::specs::Terms::summed_terms))]
fn summed_terms(
    alloc: Global,
    summed: Summed,
    problem: &Problem,
    table: &LiteralTable,
    held: &[(Word, List<Defined>)],
    block: &Block,
) -> Result<Vec<Weighted>, AllocError>
    ensures { IfOk result (λ terms. terms.items
        ≡ summed_terms problem.now table.now (held_in held.now) summed block.now) }
{
    match summed {
        Summed::Node => presence_terms(alloc, block),
        Summed::Deprecated => deprecated_terms(alloc, problem, block),
        Summed::Version => version_terms(alloc, problem, block),
        Summed::OtherValues => variant_terms(alloc, Counted::Others, problem, held, block),
        Summed::UnusedDefaults => variant_terms(alloc, Counted::Unused, problem, held, block),
        Summed::Providers => provider_terms(alloc, problem, table, block),
        Summed::Edges(attribute) => edge_terms(alloc, attribute, table, block),
        Summed::Os => os_terms(alloc, problem, block),
        Summed::Target => target_terms(alloc, problem, block),
        Summed::Compiler => compiler_terms(alloc, problem, block),
    }
}

/// What the node of a block adds to a criterion.
pub(crate) fn criterion_terms(
    alloc: Global,
    criterion: Criterion,
    problem: &Problem,
    table: &LiteralTable,
    held: &[(Word, List<Defined>)],
    block: &Block,
) -> Result<Vec<Weighted>, AllocError>
    ensures { IfOk result (λ terms. terms.items
        ≡ terms_of problem.now table.now (held_in held.now) criterion block.now) }
{
    match criterion {
        Criterion::All(summed) => summed_terms(alloc, summed, problem, table, held, block),
        Criterion::Roots(summed) => {
            if is_root_name(problem, block.name.as_str()) {
                summed_terms(alloc, summed, problem, table, held, block)
            } else {
                Ok(Vec::new(alloc))
            }
        }
        Criterion::Others(summed) => {
            if is_root_name(problem, block.name.as_str()) {
                Ok(Vec::new(alloc))
            } else {
                summed_terms(alloc, summed, problem, table, held, block)
            }
        }
    }
}
