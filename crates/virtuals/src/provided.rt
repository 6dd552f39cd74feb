// The rows of `provides`, found by the virtuals that they name.
ghost use Rattle.std.specs.Prelude.{◌≡◌, ◌≤◌, [], length, get_or, IfOk};
ghost use Rattle.std.specs.List.{slice_range};
ghost use Rattle.std.specs.List.Sorted.{IsSortedBy};
ghost use Rattle.virtuals.specs.Provided.{is_before, naming, AreByName, AreRowsOf};

use plain_data::{Duplicate, List};
use recipe_data::{ProvideRow, Recipe};
use std::alloc::{AllocError, Global};
use std::marker::Model;

/// The rows of `provides` of some recipes, those of each recipe in byte order of the virtuals, seen
/// as the list of these lists.
#[derive(Drop)]
pub struct ProvidedRows {
    lists: Vec<List<ProvideRow>>,
}

impl Model for ProvidedRows {
    ghost use Rattle.std.specs.Prelude.{List, All};
    ghost use Rattle.std.specs.List.Sorted.{IsSortedBy};
    ghost use Rattle.recipe_data.specs.declared.recipe.ProvideRow.{ProvideRow};
    ghost use Rattle.virtuals.specs.Provided.{is_before};

    ghost Value = { List (List ProvideRow) };

    ghost view = { λ provided. provided.lists.items };

    ghost invariant = { λ provided. All (IsSortedBy is_before) provided.lists.items };
}

impl ProvidedRows {
    /// The rows of these recipes, each copied.
    ///
    /// Takes n log n comparisons for n rows.
    pub fn of_recipes(alloc: Global, recipes: &[Recipe]) -> Result<ProvidedRows, AllocError>
        ensures { IfOk result (AreRowsOf recipes.now) }
    {
        let mut lists = Vec::new(alloc);
        for recipe in recipes {
            lists.push(by_name(alloc, recipe.provides.as_slice())?)?;
        }
        Ok(ProvidedRows { lists })
    }

    /// The rows that name the virtual, of the recipe at a place, in the order of the recipe. There
    /// is none behind the last recipe.
    ///
    /// Takes two binary searches.
    pub fn naming(&self, place: usize, name: &str) -> &[ProvideRow]
        ensures { result.now ≡ naming name.now (get_or self.now place []) }
    {
        match self.lists.get(place) {
            Some(rows) => run_of(rows.as_slice(), name),
            None => &[],
        }
    }
}

fn copies_of(alloc: Global, rows: &[ProvideRow]) -> Result<Vec<ProvideRow>, AllocError>
    ensures { IfOk result (λ copies. copies.items ≡ rows.now) }
{
    let mut copies = Vec::new(alloc);
    for row in rows {
        copies.push(row.duplicate(alloc)?)?;
    }
    Ok(copies)
}

fn by_name(alloc: Global, rows: &[ProvideRow]) -> Result<List<ProvideRow>, AllocError>
    ensures { IfOk result (AreByName rows.now) }
{
    let mut copies = copies_of(alloc, rows)?;
    copies.sort_by(|a, b| a.name.as_str().cmp(b.name.as_str()))?;
    Ok(List::from_vec(copies))
}

fn run_of<'a>(rows: &'a [ProvideRow], name: &str) -> &'a [ProvideRow]
    requires { IsSortedBy is_before rows.now }
    ensures { result.now ≡ naming name.now rows.now }
{
    let (first, end) = bounds_of(rows, name);
    &rows[first..end]
}

// Where the rows that name the virtual begin and end.
fn bounds_of(rows: &[ProvideRow], name: &str) -> (usize, usize)
    requires { IsSortedBy is_before rows.now }
    ensures bounds { result.0 ≤ result.1 }
    ensures within { result.1 ≤ length rows.now }
    ensures run { slice_range rows.now result.0 result.1 ≡ naming name.now rows.now }
{
    let first = rows.partition_point(|row| row.name.as_str().cmp(name).is_lt());
    let end = rows.partition_point(|row| row.name.as_str().cmp(name).is_le());
    (first, end)
}
