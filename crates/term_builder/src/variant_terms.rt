//! The terms of the values of variants.
ghost use Rattle.std.specs.Prelude.{◌≡◌, ◌++◌, ◌∷◌, [], map, flat_map, not, true, IfOk, OnOk};
ghost use Rattle.std.specs.Str.{bytes_eq};
ghost use Rattle.condition_rules.specs.Words.{is_one_text};
ghost use Rattle.clause_formulas.specs.Statements.{atom, both_statements, all_statements, no};
ghost use Rattle.clause_formulas.specs.Drafts.{statement_of};
ghost use Rattle.literal_table.specs.Choices.{any_choice as any_choice_on};
ghost use Rattle.cost_terms.specs.Governing.{weighed_once, other_terms, unused_terms, governing_rows, variant_terms};
ghost use Rattle.cost_terms.specs.Terms.{over_variants_terms};
ghost use Rattle.term_builder.specs.Tests.{only_if};
ghost use Rattle.term_builder.specs.VariantTerms.{row_said, rows_of, governs, counted_terms};

use crate::definitions::{Definition, Definitions, with_conditions};
use crate::governing::governs;
use clause_formulas::{Defined, Formula};
use clause_store::Lit;
use cost_terms::Weighted;
use literal_table::{Block, any_choice};
use plain_data::{List, Word};
use problem::{Problem, variants_at};
use recipe_data::VariantRow;
use std::alloc::{AllocError, Global};

/// What is counted of a variant: values that are no default values, or default values that are not
/// used.
#[derive(Clone, Copy)]
pub enum Counted {
    Others,
    Unused,
}

fn among(texts: &[Word], text: &str) -> bool
    ensures { result ≡ is_one_text texts.now text.now }
{
    texts.iter().any(|other| text == other.as_str())
}

// ---- values that are no default values

// One where the value is chosen and the definition governs, if the value counts.
fn push_other(
    alloc: Global,
    terms: &mut Vec<Weighted>,
    counts: bool,
    value: Lit,
    condition: Defined,
    later: &[(&str, &Definition)],
) -> Result<(), AllocError>
    ensures { OnOk result (terms.new.items ≡ terms.old.items
        ++ only_if counts (weighed_once (both_statements (atom value)
        (governs (statement_of condition) (rows_of later.now))))) }
{
    if !counts {
        return Ok(());
    }
    let governing = governs(alloc, condition, later)?;
    let formula = Formula::both(alloc, Formula::lit(value), governing)?;
    terms.push(Weighted { weight: 1, formula })?;
    Ok(())
}

// One for each chosen value that is no default of the definition, where that governs.
fn push_others(
    alloc: Global,
    terms: &mut Vec<Weighted>,
    row: &VariantRow,
    condition: Defined,
    later: &[(&str, &Definition)],
    values: &[(Word, Lit)],
) -> Result<(), AllocError>
    ensures { OnOk result (terms.new.items ≡ terms.old.items ++ other_terms (
      row.now,
      governs (statement_of condition) (rows_of later.now),
    )
        values.now) }
{
    for choice in values {
        let counts = !among(row.default.values(), choice.0.as_str());
        push_other(alloc, terms, counts, choice.1, condition, later)?;
    }
    Ok(())
}

// ---- default values that are not used

fn some_value(alloc: Global, values: &[(Word, Lit)]) -> Result<Formula, AllocError>
    ensures { IfOk result (λ formula. formula ≡ any_choice_on (λ value. true) values.now) }
{
    any_choice(alloc, values, |_value| true)
}

fn text_said(alloc: Global, text: &str, values: &[(Word, Lit)]) -> Result<Formula, AllocError>
    ensures { IfOk result (λ formula. formula ≡ any_choice_on (bytes_eq text.now) values.now) }
{
    any_choice(alloc, values, |value| text == value.as_str())
}

// The variant is there, its definition governs, and the default value is not used.
fn unused_said(
    alloc: Global,
    text: &str,
    governing: Formula,
    values: &[(Word, Lit)],
) -> Result<Formula, AllocError>
    ensures { IfOk result (λ formula. formula
        ≡ all_statements (any_choice_on (λ value. true) values.now
        ∷ governing ∷ no (any_choice_on (bytes_eq text.now) values.now) ∷ [])) }
{
    let mut parts = Vec::new(alloc);
    parts.push(some_value(alloc, values)?)?;
    parts.push(governing)?;
    parts.push(text_said(alloc, text, values)?.negated())?;
    Formula::all(alloc, parts)
}

// One for each default value of the definition that is not chosen, where that governs.
fn push_unused(
    alloc: Global,
    terms: &mut Vec<Weighted>,
    row: &VariantRow,
    condition: Defined,
    later: &[(&str, &Definition)],
    values: &[(Word, Lit)],
) -> Result<(), AllocError>
    ensures { OnOk result (terms.new.items ≡ terms.old.items ++ unused_terms (
      row.now,
      governs (statement_of condition) (rows_of later.now),
    )
        values.now) }
{
    for text in row.default.values() {
        let governing = governs(alloc, condition, later)?;
        let formula = unused_said(alloc, text.as_str(), governing, values)?;
        terms.push(Weighted { weight: 1, formula })?;
    }
    Ok(())
}

// ---- either, over all definitions and variants

// What a definition adds to the values of its variant.
fn push_counted(
    alloc: Global,
    terms: &mut Vec<Weighted>,
    which: Counted,
    one: &Definition,
    later: &[(&str, &Definition)],
    values: &[(Word, Lit)],
) -> Result<(), AllocError>
    ensures { OnOk result (terms.new.items ≡ terms.old.items
        ++ counted_terms which (one.now.0, governs (statement_of one.now.1) (rows_of later.now))
        values.now) }
{
    let row = one.row();
    let condition = one.condition();
    match which {
        Counted::Others => push_others(alloc, terms, row, condition, later, values),
        Counted::Unused => push_unused(alloc, terms, row, condition, later, values),
    }
}

// What the values of a variant add, definition by definition.
fn push_each(
    alloc: Global,
    terms: &mut Vec<Weighted>,
    which: Counted,
    definitions: &[(&str, &Definition)],
    values: &[(Word, Lit)],
) -> Result<(), AllocError>
    ensures { OnOk result (terms.new.items ≡ terms.old.items
        ++ flat_map (λ r. counted_terms which r values.now)
        (governing_rows (rows_of definitions.now))) }
{
    for (i, one) in definitions.iter().enumerate() {
        push_counted(alloc, terms, which, one.1, &definitions[i + 1..], values)?;
    }
    Ok(())
}

// What the values of a variant add.
fn push_variant(
    alloc: Global,
    terms: &mut Vec<Weighted>,
    which: Counted,
    definitions: &Definitions,
    variant: &str,
    values: &[(Word, Lit)],
) -> Result<(), AllocError>
    ensures { OnOk result (terms.new.items ≡ terms.old.items
        ++ variant_terms (counted_terms which) (map row_said definitions.now)
        (variant.now, values.now)) }
{
    push_each(alloc, terms, which, definitions.of(variant), values)
}

fn push_all(
    alloc: Global,
    terms: &mut Vec<Weighted>,
    which: Counted,
    definitions: &Definitions,
    variants: &[(Word, List<(Word, Lit)>)],
) -> Result<(), AllocError>
    ensures { OnOk result (terms.new.items ≡ terms.old.items
        ++ flat_map (variant_terms (counted_terms which) (map row_said definitions.now))
        variants.now) }
{
    for variant in variants {
        let values = variant.1.as_slice();
        push_variant(alloc, terms, which, definitions, variant.0.as_str(), values)?;
    }
    Ok(())
}

/// The terms of the variants of a block's node, where the conditions of the package's definitions
/// are given in their order.
pub fn push_variants(
    alloc: Global,
    terms: &mut Vec<Weighted>,
    which: Counted,
    problem: &Problem,
    conditions: &[Defined],
    block: &Block,
) -> Result<(), AllocError>
    ensures { OnOk result (terms.new.items ≡ terms.old.items
        ++ over_variants_terms (counted_terms which) problem.now
        (λ name. map statement_of conditions.now) block.now) }
{
    let rows = variants_at(problem, block.name.as_str());
    let held = with_conditions(alloc, rows, conditions)?;
    let definitions = Definitions::new(alloc, held.as_slice())?;
    push_all(alloc, terms, which, &definitions, block.variants.as_slice())
}
