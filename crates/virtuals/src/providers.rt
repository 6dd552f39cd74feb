// The packages that may provide virtuals.
ghost use Rattle.std.specs.Prelude.{◌≡◌, ◌≤◌, ◌++◌, length, filter, IfOk, OnOk};
ghost use Rattle.std.specs.List.{slice_range};
ghost use Rattle.std.specs.Str.{bytes_eq};
ghost use Rattle.std.specs.List.Sorted.{IsStrictlySortedBy};
ghost use Rattle.recipe_data.specs.OfGraphCore.Graphs.{pair_cmp};
ghost use Rattle.virtuals.specs.Virtuals.{AreProviders, has_pair, pairs_of};
ghost use Rattle.virtuals.specs.Pairs.{row_pairs, all_pairs};

use plain_data::{Duplicate, Word};
use recipe_data::{ProvideRow, Recipe};
use std::alloc::{AllocError, Global};
use std::marker::Model;

/// The virtuals of some recipes with the packages that may provide them, seen as the list of these
/// pairs in byte order.
#[derive(Debug, Drop)]
pub struct Providers {
    pairs: Vec<(Word, Word)>,
}

impl Model for Providers {
    ghost use Rattle.std.specs.List.Sorted.{IsStrictlySortedBy};
    ghost use Rattle.recipe_data.specs.OfGraphCore.Graphs.{pair_cmp};
    ghost use Rattle.virtuals.specs.Virtuals.{Pairs};

    ghost Value = { Pairs };

    ghost view = { λ providers. providers.pairs.items };

    ghost invariant = { λ providers. IsStrictlySortedBy pair_cmp providers.pairs.items };
}

impl Providers {
    /// What these recipes provide.
    ///
    /// Takes n log n comparisons for n rows of `provides`.
    pub fn of_recipes(alloc: Global, recipes: &[Recipe]) -> Result<Providers, AllocError>
        ensures { IfOk result (AreProviders recipes.now) }
    {
        let mut pairs = collected(alloc, recipes)?;
        pairs.sort_unstable();
        pairs.dedup();
        Ok(Providers { pairs })
    }

    /// The pairs of a virtual with the packages that may provide it, in byte order of the packages.
    pub fn possible(&self, name: &str) -> &[(Word, Word)]
        ensures { result.now ≡ pairs_of self.now name.now }
    {
        let pairs = self.pairs.as_slice();
        let (first, end) = run_of(pairs, name);
        &pairs[first..end]
    }

    /// Whether some package provides the name.
    pub fn is_virtual(&self, name: &str) -> bool
        ensures { result ≡ has_pair self.now name.now }
    {
        let run = self.possible(name);
        !run.is_empty()
    }
}

// The pair of each row of `provides`.
fn collected(alloc: Global, recipes: &[Recipe]) -> Result<Vec<(Word, Word)>, AllocError>
    ensures { IfOk result (λ pairs. pairs.items ≡ all_pairs recipes.now) }
{
    let mut pairs = Vec::new(alloc);
    for recipe in recipes {
        add_rows(alloc, &mut pairs, &recipe.name, recipe.provides.as_slice())?;
    }
    Ok(pairs)
}

fn add_rows(
    alloc: Global,
    pairs: &mut Vec<(Word, Word)>,
    provider: &Word,
    rows: &[ProvideRow],
) -> Result<(), AllocError>
    ensures { OnOk result (pairs.new.items ≡ pairs.old.items ++ row_pairs provider.now rows.now) }
{
    for row in rows {
        pairs.push((row.name.duplicate(alloc)?, provider.duplicate(alloc)?))?;
    }
    Ok(())
}

// Where the pairs of a virtual begin and end.
fn run_of(pairs: &[(Word, Word)], name: &str) -> (usize, usize)
    requires { IsStrictlySortedBy pair_cmp pairs.now }
    ensures bounds { result.0 ≤ result.1 }
    ensures within { result.1 ≤ length pairs.now }
    ensures run { slice_range pairs.now result.0 result.1
        ≡ filter (λ pair. bytes_eq pair.0 name.now) pairs.now }
{
    let first = pairs.partition_point(|pair| pair.0.as_str().cmp(name).is_lt());
    let end = pairs.partition_point(|pair| pair.0.as_str().cmp(name).is_le());
    (first, end)
}
