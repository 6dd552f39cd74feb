//! The recipes of files, and that their names are not provided.

ghost use Rattle.std.specs.Prelude.{◌≡◌, ◌≤◌, ◌^◌, true, map, Ok, Err, IfOk};
ghost use Rattle.std.specs.List.{list_all};
ghost use Rattle.recipe_data.specs.Right.{is_right_recipe};
ghost use Rattle.problem.specs.Limits.{are_few_rows};
ghost use Rattle.virtuals.specs.Virtuals.{recipe_name};
ghost use Rattle.recipe_reader.specs.Files.{recipe_in_file, FailsAt, IsFirstFault};
ghost use Rattle.run_answers.specs.Stages.{Is};
ghost use Rattle.run_answers.specs.Stops.{Gives, EndsInReadFault};
ghost use Rattle.run_input.specs.Sources.{bytes_in, source_of};
ghost use Rattle.run_input.specs.Recipes.{recipes_of};
ghost use Rattle.run_input.specs.Inputs.{apart_of};

use crate::{ReadStop, Refusal};
use file_limits::size_laws;
use plain_data::{Duplicate, List};
use recipe_data::Recipe;
use recipe_reader::{RecipeFault, RecipeFile, read_recipes};
use std::alloc::{AllocError, Global};
use std::thread::Threads;
use virtuals::{Providers, ProvidersFault};

/// How many files a turn has.
const TURN: usize = 1 << 10;

/// The refusal for the first file that has a fault.
#[tactic(auto, using(crate::proofs::Files::first_bad))]
fn refused(
    alloc: Global,
    files: &[RecipeFile],
    place: u64,
    fault: RecipeFault,
) -> Result<Refusal, AllocError>
    requires { IsFirstFault place fault files.now }
    ensures refusal { IfOk result (λ refusal. recipes_of (map source_of files.now) ≡ Err refusal) }
{
    match files.get(place as usize) {
        Some(file) => Ok(Refusal::BadRecipe(file.name.duplicate(alloc)?, fault)),
        None => unreachable!(),
    }
}

/// Why reading stops at the first file that has a fault.
fn stop_at(
    alloc: Global,
    files: &[RecipeFile],
    place: u64,
    fault: RecipeFault,
) -> Result<List<Recipe>, ReadStop>
    requires { FailsAt place fault files.now }
    ensures read { Gives result (Is (recipes_of (map source_of files.now))) }
    ensures stops { IfOk result (λ _. ⊥) }
    ensures no_fault { EndsInReadFault result → ⊥ }
{
    match fault {
        RecipeFault::OutOfMemory => Err(ReadStop::NoMemory),
        _ => Err(ReadStop::Refused(refused(alloc, files, place, fault)?)),
    }
}

/// The recipes of the files of a turn, one of each and in their order.
#[tactic(auto, using(crate::proofs::Files::all_read, crate::proofs::Files::named_alike))]
fn recipes_in_turn<R: Threads + Sync>(
    rt: &R,
    alloc: Global,
    files: &[RecipeFile],
) -> Result<List<Recipe>, ReadStop>
    ensures read { Gives result (Is (recipes_of (map source_of files.now))) }
    ensures found { IfOk result (λ recipes. map recipe_in_file files.now ≡ map Ok recipes) }
    ensures right { IfOk result (λ recipes. list_all is_right_recipe recipes ≡ true) }
    ensures names { IfOk result (λ recipes. map recipe_name recipes ≡ map (λ source. source.0)
        (map source_of files.now)) }
    ensures no_fault { EndsInReadFault result → ⊥ }
{
    match read_recipes(rt, alloc, files) {
        Ok(recipes) => Ok(recipes),
        Err((place, fault)) => stop_at(alloc, files, place, fault),
    }
}

/// The recipes of files, one of each and in their order. They are read in turns, and the bytes of a
/// turn go before the next one, so that what is made of them takes their room.
pub fn recipes_of<R: Threads + Sync>(
    rt: &R,
    alloc: Global,
    files: Vec<RecipeFile>,
) -> Result<List<Recipe>, ReadStop>
    requires { bytes_in (map source_of files.items) ≤ 2 ^ 28 }
    ensures read { Gives result (Is (recipes_of (map source_of files.items))) }
    ensures right { IfOk result (λ recipes. list_all is_right_recipe recipes ≡ true) }
    ensures few_rows { IfOk result (λ recipes. are_few_rows recipes ≡ true) }
    ensures names { IfOk result (λ recipes. map recipe_name recipes ≡ map (λ source. source.0)
        (map source_of files.items)) }
    ensures no_fault { EndsInReadFault result → ⊥ }
{
    size_laws();
    let mut recipes = Vec::new(alloc);
    let mut rest = files;
    'turns: while !rest.is_empty() {
        let later = rest.split_off(rest.len().min(TURN))?;
        match recipes_in_turn(rt, alloc, rest.as_slice()) {
            Ok(more) => recipes.append(&mut more.into_vec())?,
            Err(stop) => return Err(stop),
        }
        rest = later;
    }
    Ok(List::from_vec(recipes))
}

/// Refuses a recipe whose name some recipe provides.
#[tactic(auto, unfolding(crate::specs::Inputs::apart_of))]
pub fn check_apart(alloc: Global, recipes: &[Recipe]) -> Result<(), ReadStop>
    ensures read { Gives result (Is (apart_of recipes.now)) }
    ensures no_fault { EndsInReadFault result → ⊥ }
{
    match Providers::new(alloc, recipes) {
        Ok(_) => Ok(()),
        Err(ProvidersFault::NameClash(name)) => Err(ReadStop::Refused(Refusal::NameClash(name))),
        Err(ProvidersFault::OutOfMemory) => Err(ReadStop::NoMemory),
    }
}
