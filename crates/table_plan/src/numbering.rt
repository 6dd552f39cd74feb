//! The table of a plan.
ghost use Rattle.std.specs.Prelude.{◌≡◌, ◌+◌, ◌^◌, [], ◌∷◌, length, IfOk, IfErr, OnOk};
ghost use Rattle.table_plan.specs.Offers.{IsPlan};
ghost use Rattle.table_plan.specs.Numbers.{positive_lit, numbered, attribute, width_of, variants_from, value_count, block_width, widths, block_from, blocks_from, edge_from, edge_lits_from, edge_width, edge_widths, provider_from, providers_from, table_from, variables_of};

use crate::{Plan, Possible, PossibleEdge};
use clause_store::{Lit, Var};
use literal_table::{Block, EdgeLits, LiteralTable, ProviderLits};
use plain_data::{Duplicate, List, Word};
use std::alloc::{AllocError, Global};
use variant_values::ValueSet;

/// The table of a plan, whose variables go on from a number, the next one that is free.
///
/// Numbers that do not fit count as want of memory.
#[tactic(auto, unfolding(crate::specs::Numbers::table_from, crate::specs::Numbers::variables_of))]
pub fn table_from(alloc: Global, next: &mut u64, plan: &Plan) -> Result<LiteralTable, AllocError>
    requires { IsPlan plan.now }
    ensures table { IfOk result (λ table. table ≡ table_from next.old plan.now) }
    ensures next { OnOk result (next.new ≡ next.old + variables_of plan.now) }
{
    let blocks = blocks_from(alloc, next, plan.nodes.as_slice())?;
    let edges = edges_from(alloc, next, plan.edges.as_slice())?;
    let providers = providers_from(alloc, next, plan.providers.as_slice())?;
    Ok(LiteralTable::new(blocks, edges, providers))
}

// The literal of the next variable. Numbers end with those of 64 bits.
fn new_lit(next: &mut u64) -> Result<Lit, AllocError>
    ensures lit { IfOk result (λ lit. lit ≡ positive_lit next.old) }
    ensures next { OnOk result (next.new ≡ next.old + 1) }
    ensures cause { IfErr result (λ _. next.old + 1 ≡ 2 ^ 64) }
{
    let number = *next;
    if number == u64::MAX {
        return Err(AllocError);
    }
    *next = number + 1;
    Ok(Lit {
        var: Var(number),
        positive: true,
    })
}

// A new literal for each element.
fn numbered<T: Duplicate>(
    alloc: Global,
    next: &mut u64,
    items: &[T],
) -> Result<List<(T, Lit)>, AllocError>
    ensures choices { IfOk result (λ choices. choices ≡ numbered next.old items.now) }
    ensures next { OnOk result (next.new ≡ next.old + length items.now) }
{
    let mut choices = List::new(alloc);
    for item in items {
        let lit = new_lit(next)?;
        choices.push((item.duplicate(alloc)?, lit))?;
    }
    Ok(choices)
}

fn alone<T: Duplicate>(alloc: Global, item: &T, lit: Lit) -> Result<List<(T, Lit)>, AllocError>
    ensures { IfOk result (λ choices. choices ≡ (item.now, lit) ∷ []) }
{
    let mut choices = List::new(alloc);
    choices.push((item.duplicate(alloc)?, lit))?;
    Ok(choices)
}

// The literals of an attribute: one that alone may be chosen has the literal of the node.
fn attribute<T: Duplicate>(
    alloc: Global,
    present: Lit,
    next: &mut u64,
    items: &[T],
) -> Result<List<(T, Lit)>, AllocError>
    ensures choices { IfOk result (λ choices. choices ≡ attribute present next.old items.now) }
    ensures next { OnOk result (next.new ≡ next.old + width_of items.now) }
{
    match items {
        [only] => {
            let choices = alone(alloc, only, present)?;
            Ok(choices)
        }
        _ => {
            let choices = numbered(alloc, next, items)?;
            Ok(choices)
        }
    }
}

fn variant_from(
    alloc: Global,
    next: &mut u64,
    variant: &(Word, ValueSet),
) -> Result<(Word, List<(Word, Lit)>), AllocError>
    ensures variant { IfOk result (λ made. made ≡ (
      variant.now.0,
      numbered next.old variant.now.1,
    )) }
    ensures next { OnOk result (next.new ≡ next.old + length variant.now.1) }
{
    let values = numbered(alloc, next, variant.1.values())?;
    Ok((variant.0.duplicate(alloc)?, values))
}

// The values of each variant, each with a new literal.
fn variants_from(
    alloc: Global,
    next: &mut u64,
    variants: &[(Word, ValueSet)],
) -> Result<List<(Word, List<(Word, Lit)>)>, AllocError>
    ensures variants { IfOk result (λ made. made ≡ variants_from next.old variants.now) }
    ensures next { OnOk result (next.new ≡ next.old + value_count variants.now) }
{
    let mut made = List::new(alloc);
    for variant in variants {
        let one = variant_from(alloc, next, variant)?;
        made.push(one)?;
    }
    Ok(made)
}

// What may be chosen at a name, each with its literal.
#[tactic(auto, unfolding(crate::specs::Numbers::block_from))]
fn block_from(alloc: Global, next: &mut u64, p: &Possible) -> Result<Block, AllocError>
    ensures block { IfOk result (λ block. block ≡ block_from next.old p.now) }
    ensures next { OnOk result (next.new ≡ next.old + block_width p.now) }
{
    let present = new_lit(next)?;
    let origins = attribute(alloc, present, next, p.origins.as_slice())?;
    let versions = attribute(alloc, present, next, p.versions.as_slice())?;
    let variants = variants_from(alloc, next, p.variants.as_slice())?;
    let compilers = attribute(alloc, present, next, p.compilers.as_slice())?;
    let os = attribute(alloc, present, next, p.os.as_slice())?;
    let targets = attribute(alloc, present, next, p.targets.as_slice())?;
    let prefixes = attribute(alloc, present, next, p.prefixes.as_slice())?;
    Ok(Block {
        name: p.name.duplicate(alloc)?,
        present,
        origins,
        versions,
        variants,
        compilers,
        os,
        targets,
        prefixes,
    })
}

// A block for each name, one behind the other.
fn blocks_from(alloc: Global, next: &mut u64, nodes: &[Possible]) -> Result<Vec<Block>, AllocError>
    ensures blocks { IfOk result (λ blocks. blocks.items ≡ blocks_from next.old nodes.now) }
    ensures next { OnOk result (next.new ≡ next.old + widths nodes.now) }
{
    let mut blocks = Vec::new(alloc);
    for p in nodes {
        let block = block_from(alloc, next, p)?;
        blocks.push(block)?;
    }
    Ok(blocks)
}

// A new literal for each kind of an edge, and for each virtual that it may name.
fn edge_from(alloc: Global, next: &mut u64, e: &PossibleEdge) -> Result<EdgeLits, AllocError>
    ensures edge { IfOk result (λ edge. edge ≡ edge_from next.old e.now) }
    ensures next { OnOk result (next.new ≡ next.old + edge_width e.now) }
{
    let build = new_lit(next)?;
    let link = new_lit(next)?;
    let run = new_lit(next)?;
    let virtuals = numbered(alloc, next, e.virtuals.values())?;
    Ok(EdgeLits {
        parent: e.parent.duplicate(alloc)?,
        child: e.child.duplicate(alloc)?,
        build,
        link,
        run,
        virtuals,
    })
}

// The literals of each edge, one behind the other.
fn edges_from(
    alloc: Global,
    next: &mut u64,
    possible: &[PossibleEdge],
) -> Result<Vec<EdgeLits>, AllocError>
    ensures edges { IfOk result (λ edges. edges.items ≡ edge_lits_from next.old possible.now) }
    ensures next { OnOk result (next.new ≡ next.old + edge_widths possible.now) }
{
    let mut edges = Vec::new(alloc);
    for e in possible {
        let edge = edge_from(alloc, next, e)?;
        edges.push(edge)?;
    }
    Ok(edges)
}

fn provider_from(
    alloc: Global,
    next: &mut u64,
    asked: &(Word, List<Word>),
) -> Result<ProviderLits, AllocError>
    ensures provider { IfOk result (λ provider. provider ≡ provider_from next.old asked.now) }
    ensures next { OnOk result (next.new ≡ next.old + length asked.now.1) }
{
    let packages = numbered(alloc, next, asked.1.as_slice())?;
    Ok(ProviderLits {
        name: asked.0.duplicate(alloc)?,
        packages,
    })
}

// A new literal for each package that may provide a virtual, virtual by virtual.
fn providers_from(
    alloc: Global,
    next: &mut u64,
    virtuals: &[(Word, List<Word>)],
) -> Result<Vec<ProviderLits>, AllocError>
    ensures providers { IfOk result
        (λ providers. providers.items ≡ providers_from next.old virtuals.now) }
    ensures next { OnOk result (next.new ≡ next.old + value_count virtuals.now) }
{
    let mut providers = Vec::new(alloc);
    for asked in virtuals {
        let provider = provider_from(alloc, next, asked)?;
        providers.push(provider)?;
    }
    Ok(providers)
}
