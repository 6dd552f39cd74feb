//! What files are answered by that threads read beside each other.

use crate::show_recipe::{recipe_fault_text, recipe_text};
use plain_data::Word;
use recipe_reader::{RecipeFile, read_recipes_on};
use std::alloc::{AllocError, Global};
use std::thread::Threads;

/// One file more, under the name `p0`, `p1` and so on.
fn push_file(alloc: Global, files: &mut Vec<RecipeFile>, text: String) -> Result<(), AllocError> {
    let place = files.len();
    let name = Word::new(alloc, format!(in alloc; "p{place}")?.as_str())?;
    files.push(RecipeFile {
        name,
        bytes: text.into_bytes(),
    })?;
    Ok(())
}

/// The files of a text, between which lines `%%` stand.
fn files_of(alloc: Global, text: &str) -> Result<Vec<RecipeFile>, AllocError> {
    let mut files = Vec::new(alloc);
    let mut file = String::new(alloc);
    for line in text.lines() {
        if line == "%%" {
            push_file(
                alloc,
                &mut files,
                std::mem::replace(&mut file, String::new(alloc)),
            )?;
        } else {
            file.push_str(line)?;
            file.push_str("\n")?;
        }
    }
    push_file(alloc, &mut files, file)?;
    Ok(files)
}

/// The recipes of the files of a text, as `p0: version 1 #0 ; p1: none`, or the place of a file and
/// its fault; so many threads read them.
pub(crate) fn files_text<R: AllocGlobal + Threads + Sync>(
    rt: &R,
    threads: u64,
    text: &[u8],
) -> Result<String, AllocError> {
    let alloc = rt.alloc();
    let text = String::from_utf8_lossy(alloc, text)?;
    let files = files_of(alloc, text.as_str())?;
    match read_recipes_on(rt, alloc, threads, &files) {
        Ok(recipes) => {
            let mut out = String::new(alloc);
            for recipe in recipes.as_slice() {
                out.push_str(recipe.name.as_str())?;
                out.push_str(": ")?;
                out.push_str(recipe_text(alloc, recipe)?.as_str())?;
                out.push_str(" ; ")?;
            }
            Ok(out)
        }
        Err((place, fault)) => {
            let fault = recipe_fault_text(alloc, fault)?;
            format!(in alloc; "{place} {fault}")
        }
    }
}
