//! A package's definitions of variants with the formulas of their conditions, found by the
//! variants.
ghost use Rattle.std.specs.Prelude.{◌≡◌, map, IfOk};
ghost use Rattle.clause_formulas.specs.Drafts.{statement_of};
ghost use Rattle.keyed_lists.specs.Lent.{IsIndexOf};
ghost use Rattle.cost_terms.specs.Governing.{with_formulas, of_variant};
ghost use Rattle.term_builder.specs.VariantTerms.{row_said, rows_of};

use clause_formulas::Defined;
use keyed_lists::TextIndex;
use recipe_data::VariantRow;
use std::alloc::{AllocError, Global};
use std::marker::Model;

/// A definition and the value of its condition.
#[derive(Drop)]
pub(crate) struct Definition<'a> {
    row: &'a VariantRow,
    condition: Defined,
}

impl<'a> Model for Definition<'a> {
    ghost use Rattle.term_builder.specs.VariantTerms.{Held};

    ghost Value = { Held };

    ghost view = { λ one. (one.row.now, one.condition) };
}

impl<'a> Definition<'a> {
    pub(crate) fn row(&self) -> &'a VariantRow
        ensures { result.now ≡ self.now.0 }
    {
        self.row
    }

    pub(crate) fn condition(&self) -> Defined
        ensures { result ≡ self.now.1 }
    {
        self.condition
    }
}

/// Each definition with the value of its condition, where these are given in their order.
pub(crate) fn with_conditions<'a>(
    alloc: Global,
    rows: &'a [VariantRow],
    conditions: &[Defined],
) -> Result<Vec<Definition<'a>>, AllocError>
    ensures { IfOk result (λ held. map row_said held.items
        ≡ with_formulas rows.now (map statement_of conditions.now)) }
{
    let mut held = Vec::new(alloc);
    let mut left = conditions;
    for row in rows {
        let Some((condition, later)) = left.split_first() else {
            return Ok(held);
        };
        held.push(Definition {
            row,
            condition: *condition,
        })?;
        left = later;
    }
    Ok(held)
}

fn by_variant<'a>(
    alloc: Global,
    held: &'a [Definition<'a>],
) -> Result<TextIndex<'a, Definition<'a>>, AllocError>
    ensures { IfOk result (IsIndexOf (λ h. h.0.name) held.now) }
{
    let mut entries = Vec::new(alloc);
    for one in held {
        entries.push((one.row().name.as_str(), one))?;
    }
    TextIndex::new(entries)
}

/// Definitions that are found by their variants, seen as the list of them.
#[derive(Drop)]
pub(crate) struct Definitions<'a> {
    held: &'a [Definition<'a>],
    index: TextIndex<'a, Definition<'a>>,
}

impl<'a> Model for Definitions<'a> {
    ghost use Rattle.std.specs.Prelude.{List};
    ghost use Rattle.keyed_lists.specs.Lent.{IsIndexOf};
    ghost use Rattle.term_builder.specs.VariantTerms.{Held};

    ghost Value = { List Held };

    ghost view = { λ definitions. definitions.held.now };

    ghost invariant = { λ definitions. IsIndexOf (λ h. h.0.name) definitions.held.now definitions.index };
}

impl<'a> Definitions<'a> {
    /// Takes n log n comparisons for n definitions.
    pub(crate) fn new(
        alloc: Global,
        held: &'a [Definition<'a>],
    ) -> Result<Definitions<'a>, AllocError>
        ensures { IfOk result (λ definitions. definitions ≡ held.now) }
    {
        let index = by_variant(alloc, held)?;
        Ok(Definitions { held, index })
    }

    /// Those of a variant, in the order of the recipe.
    pub(crate) fn of(&self, variant: &str) -> &[(&'a str, &'a Definition<'a>)]
        ensures { rows_of result.now
            ≡ of_variant variant.now (map row_said self.now) }
    {
        self.index.of(variant)
    }
}
