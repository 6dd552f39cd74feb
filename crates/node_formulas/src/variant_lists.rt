// The formula of the variants of a node: just these, each with its values.
ghost use Rattle.std.specs.Prelude.{◌≡◌, ◌++◌, ◌∷◌, [], List, IfOk, OnOk};
ghost use Rattle.clause_formulas.specs.Statements.{atom};
ghost use Rattle.graph_core.specs.Graphs.{Text};
ghost use Rattle.literal_table.specs.Choices.{Choices};
ghost use Rattle.graph_formulas.specs.Facts.{fact_said, has_variants, just_parts, some_parts, variant_parts};
ghost use Rattle.word_formulas.specs.Builders.{node_said};

use clause_formulas::Formula;
use clause_store::Lit;
use literal_table::{Block, LiteralTable};
use plain_data::{List, Word};
use std::alloc::{AllocError, Global};
use variant_values::ValueSet;
use word_formulas::Scribe;

// Where a value is left that is not offered, never.
fn push_rest(alloc: Global, parts: &mut Vec<Formula>, values: &[Word]) -> Result<(), AllocError>
    ensures { OnOk result (parts.new.items ≡ parts.old.items ++ just_parts [] values.now) }
{
    if !values.is_empty() {
        parts.push(Formula::any(Vec::new(alloc)))?;
    }
    Ok(())
}

// The value of a choice is chosen where it comes next, and else is not; with the values behind it.
fn just_part<'a>(choice: &(Word, Lit), values: &'a [Word]) -> (Lit, &'a [Word])
    ensures { (choices : Choices Text) → just_parts (choice.now ∷ choices) values.now
        ≡ atom result.0 ∷ just_parts choices result.1.now }
{
    let Some((value, rest)) = values.split_first() else {
        return (choice.1.negated(), values);
    };
    if choice.0.as_str() == value.as_str() {
        (choice.1, rest)
    } else {
        (choice.1.negated(), values)
    }
}

// Just these values are chosen, in this order.
pub(crate) fn push_just(
    alloc: Global,
    parts: &mut Vec<Formula>,
    choices: &[(Word, Lit)],
    values: &[Word],
) -> Result<(), AllocError>
    ensures { OnOk result (parts.new.items ≡ parts.old.items ++ just_parts choices.now values.now) }
{
    let mut rest = values;
    for choice in choices {
        let (lit, more) = just_part(choice, rest);
        parts.push(Formula::lit(lit))?;
        rest = more;
    }
    push_rest(alloc, parts, rest)
}

// There are values.
fn push_some(alloc: Global, parts: &mut Vec<Formula>, values: &[Word]) -> Result<(), AllocError>
    ensures { OnOk result (parts.new.items ≡ parts.old.items ++ some_parts values.now) }
{
    if values.is_empty() {
        parts.push(Formula::any(Vec::new(alloc)))?;
    }
    Ok(())
}

// Where a variant is left that is not offered, never.
fn push_left(
    alloc: Global,
    parts: &mut Vec<Formula>,
    variants: &[(Word, ValueSet)],
) -> Result<(), AllocError>
    ensures { OnOk result (parts.new.items ≡ parts.old.items ++ variant_parts [] variants.now) }
{
    if !variants.is_empty() {
        parts.push(Formula::any(Vec::new(alloc)))?;
    }
    Ok(())
}

// The variant has just these values, of which there are some.
fn push_same(
    alloc: Global,
    parts: &mut Vec<Formula>,
    choices: &[(Word, Lit)],
    values: &[Word],
) -> Result<(), AllocError>
    ensures { OnOk result (parts.new.items ≡ parts.old.items
        ++ (some_parts values.now ++ just_parts choices.now values.now)) }
{
    push_some(alloc, parts, values)?;
    push_just(alloc, parts, choices, values)
}

// A variant that is offered has its values where it comes next, and else none; gives the variants
// behind it.
fn push_offer<'a>(
    alloc: Global,
    parts: &mut Vec<Formula>,
    offer: &(Word, List<(Word, Lit)>),
    variants: &'a [(Word, ValueSet)],
) -> Result<&'a [(Word, ValueSet)], AllocError>
    ensures { IfOk result (λ rest. (offered : List (Text × Choices Text))
        → parts.new.items ++ variant_parts offered rest.now
        ≡ parts.old.items ++ variant_parts (offer.now ∷ offered) variants.now) }
{
    if let Some((variant, rest)) = variants.split_first() {
        if offer.0.as_str() == variant.0.as_str() {
            push_same(alloc, parts, offer.1.as_slice(), variant.1.values())?;
            return Ok(rest);
        }
    }
    push_just(alloc, parts, offer.1.as_slice(), &[])?;
    Ok(variants)
}

// Just these variants are chosen, each with its values.
fn push_variants(
    alloc: Global,
    parts: &mut Vec<Formula>,
    offered: &[(Word, List<(Word, Lit)>)],
    variants: &[(Word, ValueSet)],
) -> Result<(), AllocError>
    ensures { OnOk result (parts.new.items ≡ parts.old.items
        ++ variant_parts offered.now variants.now) }
{
    let mut rest = variants;
    for offer in offered {
        rest = push_offer(alloc, parts, offer, rest)?;
    }
    push_left(alloc, parts, rest)
}

fn variants_in(
    alloc: Global,
    block: &Block,
    variants: &[(Word, ValueSet)],
) -> Result<Formula, AllocError>
    ensures { IfOk result (λ formula. formula ≡ fact_said block.now (has_variants variants.now)) }
{
    let mut parts = Vec::new(alloc);
    parts.push(Formula::lit(block.present))?;
    push_variants(alloc, &mut parts, block.variants.as_slice(), variants)?;
    Formula::all(alloc, parts)
}

/// The node of the name has just these variants, each with its values.
pub(crate) fn has_variants(
    alloc: Global,
    table: &LiteralTable,
    name: &str,
    variants: &[(Word, ValueSet)],
) -> Result<Formula, AllocError>
    ensures { IfOk result (λ formula. formula
        ≡ node_said table.now name.now (has_variants variants.now)) }
{
    match table.block(name) {
        Some(block) => variants_in(alloc, block, variants),
        None => Ok(Scribe { alloc, table }.given(false)),
    }
}
