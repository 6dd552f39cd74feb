// The definitions of variants in a recipe, found by the variants.
ghost use Rattle.std.specs.Prelude.{◌≡◌, map, filter, IfOk};
ghost use Rattle.std.specs.Str.{bytes_eq};
ghost use Rattle.keyed_lists.specs.Lent.{lent, IsIndexOf};
ghost use Rattle.condition_rules.specs.Worlds.{recipe_of, rows};

use crate::World;
use keyed_lists::TextIndex;
use std::alloc::{AllocError, Global};
use std::marker::Model;
use virtuals::VariantRow;

fn variants_of<'a>(world: &World<'a>, name: &str) -> &'a [VariantRow]
    ensures { result.now ≡ rows (λ recipe. recipe.variants) (recipe_of world.now name.now) }
{
    match world.recipe(name) {
        Some(recipe) => recipe.variants.as_slice(),
        None => &[],
    }
}

fn by_variant<'a>(
    alloc: Global,
    rows: &'a [VariantRow],
) -> Result<TextIndex<'a, VariantRow>, AllocError>
    ensures { IfOk result (IsIndexOf (λ row. row.name) rows.now) }
{
    let mut entries = Vec::new(alloc);
    for row in rows {
        entries.push((row.name.as_str(), row))?;
    }
    TextIndex::new(entries)
}

fn rows_in<'a>(
    alloc: Global,
    entries: &[(&'a str, &'a VariantRow)],
) -> Result<Vec<&'a VariantRow>, AllocError>
    ensures { IfOk result (λ rows. map (λ row. row.now) rows.items
        ≡ map (λ e. e.1) (lent entries.now)) }
{
    let mut rows = Vec::new(alloc);
    for entry in entries {
        rows.push(entry.1)?;
    }
    Ok(rows)
}

/// The definitions of variants in the recipe of a name, found by the variants; seen as the world
/// and the name.
#[derive(Drop)]
pub struct Definitions<'a> {
    world: World<'a>,
    name: &'a str,
    index: TextIndex<'a, VariantRow>,
}

impl<'a> Model for Definitions<'a> {
    ghost use Rattle.virtuals.specs.OfGraphCore.Graphs.{Text};
    ghost use Rattle.keyed_lists.specs.Lent.{IsIndexOf};
    ghost use Rattle.condition_rules.specs.Worlds.{World, recipe_of, rows};

    ghost Value = { World × Text };

    ghost view = { λ definitions. (definitions.world, definitions.name.now) };

    ghost invariant = { λ definitions. IsIndexOf (λ row. row.name) (rows (λ recipe. recipe.variants) (recipe_of definitions.world definitions.name.now)) definitions.index };
}

impl<'a> Definitions<'a> {
    /// Takes n log n comparisons for n definitions.
    pub fn new(
        alloc: Global,
        world: World<'a>,
        name: &'a str,
    ) -> Result<Definitions<'a>, AllocError>
        ensures { IfOk result (λ definitions. definitions ≡ (world.entry, name.now)) }
    {
        let index = by_variant(alloc, variants_of(&world, name))?;
        Ok(Definitions { world, name, index })
    }

    pub(crate) fn world(&self) -> &World<'a>
        ensures { result.now ≡ self.now.0 }
    {
        &self.world
    }

    /// The name whose recipe it is.
    pub fn name(&self) -> &'a str
        ensures { result.now ≡ self.now.1 }
    {
        self.name
    }

    /// The definitions of the variant, in the order of the recipe.
    pub fn of(&self, alloc: Global, variant: &str) -> Result<Vec<&'a VariantRow>, AllocError>
        ensures { IfOk result (λ found. map (λ row. row.now) found.items
            ≡ filter (λ row. bytes_eq row.name variant.now)
            (rows (λ recipe. recipe.variants) (recipe_of self.now.0 self.now.1))) }
    {
        rows_in(alloc, self.index.of(variant))
    }
}
