//! Recipes of files in parts: each part in a thread of its own, and what they are answered by together.

ghost use Rattle.std.specs.Prelude.{◌≡◌, ◌<◌, ◌^◌, ◌++◌, ℕ, List as Items, length, vec_len, slice_index_or, flat_map, map, Ok, IfOk};
ghost use Rattle.std.specs.List.{AllZip};
ghost use Rattle.recipe_data.specs.declared.recipe.Recipe.{Recipe};
ghost use Rattle.recipe_reader.specs.Files.{recipe_in_file, FailsAt, IsReadOf};
ghost use Rattle.recipe_reader.specs.declared.files.RecipeFile.{RecipeFile as File};

use crate::files::{Answer, read_all};
use crate::parts::cut;
use crate::{RecipeFault, RecipeFile};
use plain_data::List;
use std::alloc::{AllocError, Global};
use std::thread;
use std::thread::Threads;

/// The recipes of the first part.
fn read_first(alloc: Global, parts: &[&[RecipeFile]]) -> Answer
    requires { 0 < length parts.now }
    ensures { (d : _) → IsReadOf (slice_index_or parts.now 0 d).now result }
{
    match read_all(alloc, parts[0]) {
        Ok(recipes) => Ok(recipes),
        Err(fault) => Err(fault),
    }
}

/// What each part is answered by, where each is read in a thread of its own.
fn read_each<R: Threads + Sync>(
    rt: &R,
    alloc: Global,
    parts: &[&[RecipeFile]],
) -> Result<Vec<Answer>, AllocError>
    ensures len { IfOk result (λ answers. vec_len answers ≡ length parts.now) }
    ensures each { IfOk result (λ answers. (i : ℕ) (d : _) (e : _) → i < vec_len answers
        → IsReadOf (slice_index_or parts.now i d).now (slice_index_or answers.items i e)) }
{
    let read = |_: usize, one: &[&[RecipeFile]]| -> Answer
        requires { 0 < length one.now }
        ensures { (d : _) → IsReadOf (slice_index_or one.entry.now 0 d).now result }
    { read_first(alloc, one) };
    let answers = thread::map_chunks(rt, alloc, parts, 1, &read)?;
    Ok(answers)
}

/// The fault of files that stand behind others.
fn behind(before: usize, fault: (u64, RecipeFault)) -> (u64, RecipeFault)
    ensures { (front files more : Items File) (recipes : Items Recipe)
        → map recipe_in_file front ≡ map Ok recipes
        → length recipes ≡ before
        → length (front ++ (files ++ more)) < 2 ^ 64
        → FailsAt fault.0 fault.1 files → FailsAt result.0 result.1 (front ++ (files ++ more)) }
{
    let (place, fault) = fault;
    (place.saturating_add(before as u64), fault)
}

/// What parts are answered by together.
fn put_together(alloc: Global, answers: Vec<Answer>) -> Answer
    ensures { (parts : Items (Items File)) → AllZip IsReadOf parts answers.items
        → length (flat_map (λ part. part) parts) < 2 ^ 64
        → IsReadOf (flat_map (λ part. part) parts) result }
{
    let mut recipes = Vec::new(alloc);
    for answer in answers {
        match answer {
            Ok(more) => match recipes.append(&mut more.into_vec()) {
                Ok(()) => {}
                Err(_) => return Err((0, RecipeFault::OutOfMemory)),
            },
            Err(fault) => return Err(behind(recipes.len(), fault)),
        }
    }
    Ok(List::from_vec(recipes))
}

/// What files are answered by, read in at most so many parts, each in a thread of its own.
pub(crate) fn read_beside<R: Threads + Sync>(
    rt: &R,
    alloc: Global,
    threads: u64,
    files: &[RecipeFile],
) -> Answer
    ensures { IsReadOf files.now result }
{
    let parts = match cut(alloc, files, threads.min(files.len() as u64)) {
        Ok(parts) => parts,
        Err(_) => return Err((0, RecipeFault::OutOfMemory)),
    };
    match read_each(rt, alloc, &parts) {
        Ok(answers) => put_together(alloc, answers),
        Err(_) => Err((0, RecipeFault::OutOfMemory)),
    }
}
