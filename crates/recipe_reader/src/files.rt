//! Recipes of files.

ghost use Rattle.std.specs.Prelude.{◌≡◌, true, map, Ok, IfOk, IfErr};
ghost use Rattle.std.specs.List.{list_all};
ghost use Rattle.recipe_data.specs.Right.{is_right_recipe};
ghost use Rattle.recipe_reader.specs.Results.{Is};
ghost use Rattle.recipe_reader.specs.Files.{recipe_in_file, FailsAt};

use crate::beside::read_beside;
use crate::parts::bytes_of;
use crate::{RecipeFault, read_recipe};
use plain_data::{List, Word};
use recipe_data::Recipe;
use std::alloc::Global;
use std::thread::{Threads, available_parallelism};

/// How many bytes are worth a thread: 64 KiB, which take a millisecond and more to read.
const LEAST_BYTES: u64 = 1 << 16;

/// A file, and the name of the package that it declares.
#[derive(Debug, Drop)]
pub struct RecipeFile {
    pub name: Word,
    pub bytes: Vec<u8>,
}

/// All recipes, or the place of the first file that has a fault, and its fault.
pub(crate) type Answer = Result<List<Recipe>, (u64, RecipeFault)>;

fn read_file(alloc: Global, file: &RecipeFile) -> Result<Recipe, RecipeFault>
    ensures { Is result (recipe_in_file file.now) }
{
    read_recipe(alloc, file.name.as_str(), &file.bytes)
}

/// The recipes of files, one after the other.
pub(crate) fn read_all(alloc: Global, files: &[RecipeFile]) -> Answer
    ensures found { IfOk result (λ recipes. map recipe_in_file files.now ≡ map Ok recipes) }
    ensures fault { IfErr result (λ fault. FailsAt fault.0 fault.1 files.now) }
{
    let mut recipes = List::new(alloc);
    for (i, file) in files.iter().enumerate() {
        match read_file(alloc, file) {
            Ok(recipe) => match recipes.push(recipe) {
                Ok(()) => {}
                Err(_) => return Err((i as u64, RecipeFault::OutOfMemory)),
            },
            Err(fault) => return Err((i as u64, fault)),
        }
    }
    Ok(recipes)
}

/// What files are answered by, read by at most so many threads.
fn read_on<R: Threads + Sync>(rt: &R, alloc: Global, threads: u64, files: &[RecipeFile]) -> Answer
    ensures found { IfOk result (λ recipes. map recipe_in_file files.now ≡ map Ok recipes) }
    ensures fault { IfErr result (λ fault. FailsAt fault.0 fault.1 files.now) }
{
    if threads < 2 {
        return read_all(alloc, files);
    }
    match read_beside(rt, alloc, threads, files) {
        Ok(recipes) => Ok(recipes),
        Err(fault) => Err(fault),
    }
}

/// The recipes of files in their order, read by at most so many threads, of which each has about as many bytes
/// to read. What is answered is free of their number: each recipe is right, and has the name of its file.
///
/// # Errors
///
/// The place of the first file that has a fault, from 0, and its fault. The place beside want of memory is any.
pub fn read_recipes_on<R: Threads + Sync>(
    rt: &R,
    alloc: Global,
    threads: u64,
    files: &[RecipeFile],
) -> Result<List<Recipe>, (u64, RecipeFault)>
    ensures found { IfOk result (λ recipes. map recipe_in_file files.now ≡ map Ok recipes) }
    ensures right { IfOk result (λ recipes. list_all is_right_recipe recipes ≡ true) }
    ensures names { IfOk result (λ recipes. map (λ recipe. recipe.name) recipes
        ≡ map (λ file. file.name) files.now) }
    ensures fault { IfErr result (λ fault. FailsAt fault.0 fault.1 files.now) }
{
    match read_on(rt, alloc, threads, files) {
        Ok(recipes) => Ok(recipes),
        Err(fault) => Err(fault),
    }
}

/// How many threads are worth their start: as many as there are processors, with 64 KiB to read for each.
fn threads_for<R: Threads + Sync>(rt: &R, files: &[RecipeFile]) -> u64 {
    let worth = bytes_of(files) / LEAST_BYTES;
    if worth < 2 {
        return 1;
    }
    match available_parallelism(rt) {
        Ok(processors) => worth.min(processors.get() as u64),
        Err(_) => 1,
    }
}

/// The recipes of files in their order, on all processors where that is worth it. Each is right, and has the name
/// of its file.
///
/// # Errors
///
/// The place of the first file that has a fault, from 0, and its fault. The place beside want of memory is any.
pub fn read_recipes<R: Threads + Sync>(
    rt: &R,
    alloc: Global,
    files: &[RecipeFile],
) -> Result<List<Recipe>, (u64, RecipeFault)>
    ensures found { IfOk result (λ recipes. map recipe_in_file files.now ≡ map Ok recipes) }
    ensures right { IfOk result (λ recipes. list_all is_right_recipe recipes ≡ true) }
    ensures names { IfOk result (λ recipes. map (λ recipe. recipe.name) recipes
        ≡ map (λ file. file.name) files.now) }
    ensures fault { IfErr result (λ fault. FailsAt fault.0 fault.1 files.now) }
{
    read_recipes_on(rt, alloc, threads_for(rt, files), files)
}
