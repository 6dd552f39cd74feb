//! What may be demanded of a graph, as a list.
ghost use Rattle.std.specs.Prelude.{◌≡◌, ◌++◌, map, IfOk, OnOk};
ghost use Rattle.std.specs.List.{range_with_len};
ghost use Rattle.condition_rules.specs.OfConditions.Right.{numbers_of};
ghost use Rattle.problem.specs.Demands.{directives_of, settings_of};
ghost use Rattle.problem.specs.declared.demand.Demand.TheVariants.{Root, Directive, Setting};

use crate::Demand;
use condition_rules::{ConflictRow, DependRow, Recipe, RequireRow};
use plain_data::{Duplicate, List, Word};
use site_settings::PackageEntry;
use std::alloc::{AllocError, Global};

/// The roots in order, the directives of all recipes by package and number, and then the
/// requirements of the settings by package and place.
pub fn all_demands(
    alloc: Global,
    roots: usize,
    recipes: &[Recipe],
    packages: &[PackageEntry],
) -> Result<List<Demand>, AllocError>
    ensures { IfOk result (λ list. list ≡ (map Root (range_with_len 0 roots)
        ++ directives_of recipes.now) ++ settings_of packages.now) }
{
    let mut list = demands_of(alloc, roots, recipes)?;
    add_all_settings(alloc, &mut list, packages)?;
    Ok(list)
}

/// The roots in order, and then the directives of all recipes by package and number.
fn demands_of(alloc: Global, roots: usize, recipes: &[Recipe]) -> Result<List<Demand>, AllocError>
    ensures { IfOk result (λ list. list ≡ map Root (range_with_len 0 roots)
        ++ directives_of recipes.now) }
{
    let mut list = roots_of(alloc, roots)?;
    for recipe in recipes {
        let numbers = numbers_of(alloc, recipe)?;
        add_directives(alloc, &mut list, &recipe.name, numbers.as_slice())?;
    }
    Ok(list)
}

fn roots_of(alloc: Global, roots: usize) -> Result<List<Demand>, AllocError>
    ensures { IfOk result (λ list. list ≡ map Root (range_with_len 0 roots)) }
{
    let mut list = List::new(alloc);
    for place in 0..roots {
        list.push(Demand::Root(place as u64))?;
    }
    Ok(list)
}

/// Adds the demand of each directive of a package.
fn add_directives(
    alloc: Global,
    list: &mut List<Demand>,
    name: &Word,
    numbers: &[u64],
) -> Result<(), AllocError>
    ensures { OnOk result (list.new ≡ list.old ++ map (Directive name.now) numbers.now) }
{
    for number in numbers {
        list.push(Demand::Directive {
            package: name.duplicate(alloc)?,
            number: *number,
        })?;
    }
    Ok(())
}

// The numbers of a recipe's directives that may be demanded, rising.
fn numbers_of(alloc: Global, recipe: &Recipe) -> Result<Vec<u64>, AllocError>
    ensures { IfOk result (λ numbers. numbers.items ≡ numbers_of recipe.now) }
{
    let mut numbers = Vec::new(alloc);
    add_depends(&mut numbers, recipe.depends.as_slice())?;
    add_conflicts(&mut numbers, recipe.conflicts.as_slice())?;
    add_requirements(&mut numbers, recipe.requirements.as_slice())?;
    numbers.sort_unstable();
    numbers.dedup();
    Ok(numbers)
}

fn add_depends(numbers: &mut Vec<u64>, rows: &[DependRow]) -> Result<(), AllocError>
    ensures { OnOk result (numbers.new.items ≡ numbers.old.items
        ++ map (λ row. row.number) rows.now) }
{
    for row in rows {
        numbers.push(row.number)?;
    }
    Ok(())
}

fn add_conflicts(numbers: &mut Vec<u64>, rows: &[ConflictRow]) -> Result<(), AllocError>
    ensures { OnOk result (numbers.new.items ≡ numbers.old.items
        ++ map (λ row. row.number) rows.now) }
{
    for row in rows {
        numbers.push(row.number)?;
    }
    Ok(())
}

fn add_requirements(numbers: &mut Vec<u64>, rows: &[RequireRow]) -> Result<(), AllocError>
    ensures { OnOk result (numbers.new.items ≡ numbers.old.items
        ++ map (λ row. row.number) rows.now) }
{
    for row in rows {
        numbers.push(row.number)?;
    }
    Ok(())
}

/// Adds the demand of each requirement of the settings.
fn add_all_settings(
    alloc: Global,
    list: &mut List<Demand>,
    packages: &[PackageEntry],
) -> Result<(), AllocError>
    ensures { OnOk result (list.new ≡ list.old ++ settings_of packages.now) }
{
    for entry in packages {
        add_settings(alloc, list, &entry.name, entry.require.len())?;
    }
    Ok(())
}

/// Adds the demand of each of so many requirements of a package.
fn add_settings(
    alloc: Global,
    list: &mut List<Demand>,
    name: &Word,
    count: usize,
) -> Result<(), AllocError>
    ensures { OnOk result (list.new ≡ list.old
        ++ map (Setting name.now) (range_with_len 0 count)) }
{
    for place in 0..count {
        let package = name.duplicate(alloc)?;
        list.push(Demand::Setting {
            package,
            number: place as u64,
        })?;
    }
    Ok(())
}
