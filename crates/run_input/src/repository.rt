//! The recipes of a repository.

ghost use Rattle.std.specs.Prelude.{◌≡◌, ◌≤◌, ◌^◌, true, map, IfOk, IfSome};
ghost use Rattle.std.specs.List.{list_all};
ghost use Rattle.recipe_data.specs.Right.{is_right_recipe};
ghost use Rattle.problem.specs.Limits.{are_few_rows};
ghost use Rattle.virtuals.specs.Virtuals as virtuals;
ghost use Rattle.run_answers.specs.Reads.{OnlyReads};
ghost use Rattle.run_answers.specs.Stops.{Gives, EndsInReadFault};
ghost use Rattle.run_input.specs.Order.{FailsInside};
ghost use Rattle.variant_values.specs.Texts.{IsInByteOrder};
ghost use Rattle.run_input.specs.Sources.{bytes_in, names_of, source_of};
ghost use Rattle.run_input.specs.Inputs.{OverSources, InRepository};

use crate::recipes::{check_apart, recipes_of};
use crate::{ReadRecipes, ReadStop, Sources, read_sources};
use outside_desk::Desk;
use plain_data::List;
use recipe_data::Recipe;
use recipe_reader::RecipeFile;
use std::alloc::Global;
use std::thread::Threads;

/// The parsing of all files, and then the clash of names.
fn read_over<R: Threads + Sync>(
    rt: &R,
    alloc: Global,
    files: Vec<RecipeFile>,
) -> Result<List<Recipe>, ReadStop>
    requires { bytes_in (map source_of files.items) ≤ 2 ^ 28 }
    ensures read { Gives result (OverSources (map source_of files.items)) }
    ensures right { IfOk result (λ recipes. list_all is_right_recipe recipes ≡ true) }
    ensures few_rows { IfOk result (λ recipes. are_few_rows recipes ≡ true) }
    ensures names { IfOk result (λ recipes. map virtuals.recipe_name recipes
        ≡ map (λ source. source.0) (map source_of files.items)) }
    ensures no_fault { EndsInReadFault result → ⊥ }
{
    let recipes = recipes_of(rt, alloc, files)?;
    match check_apart(alloc, recipes.as_slice()) {
        Ok(()) => Ok(recipes),
        Err(stop) => Err(stop),
    }
}

/// What is read over a pile of files.
fn read_pile<R: Threads + Sync>(
    rt: &R,
    alloc: Global,
    sources: Sources,
) -> Result<ReadRecipes, ReadStop>
    requires { IsInByteOrder (names_of sources) }
    ensures read { Gives result (OverSources sources.files) }
    ensures no_fault { EndsInReadFault result → ⊥ }
{
    match read_over(rt, alloc, sources.into_files()) {
        Ok(recipes) => Ok(ReadRecipes::new(recipes)),
        Err(stop) => Err(stop),
    }
}

/// The reading of all files, and then their parsing.
pub fn read_repository<R: Threads + Sync, D: Desk>(
    rt: &R,
    alloc: Global,
    desk: &mut D,
    repo: &str,
) -> Result<ReadRecipes, ReadStop>
    ensures read { IfSome (D.files desk.new) (λ files. Gives result (InRepository files repo.now)) }
    ensures path { FailsInside (D.files desk.new) repo.now result }
    ensures only_reads { OnlyReads D.files D.faults D.put_faults desk.old desk.new result }
{
    let sources = read_sources(alloc, desk, repo)?;
    read_pile(rt, alloc, sources)
}
