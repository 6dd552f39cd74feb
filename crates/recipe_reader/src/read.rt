//! The calls of this crate.

ghost use Rattle.std.specs.Prelude.{◌≡◌, true, ◌<◌, ◌≤◌, ◌+◌, ◌^◌, Ok, IfOk, IfErr};
ghost use Rattle.recipe_data.specs.Right.{is_right_recipe};
ghost use Rattle.recipe_reader.specs.Results.{Is, Gives, Fails};
ghost use Rattle.recipe_reader.specs.Recipes.{count_call, read_items, start_recipe, recipe_of_file};

use crate::item::item;
use crate::stage::{items_of, tokens_of};
use crate::{RecipeFault, State};
use directive_arguments::Names;
use plain_data::{List, Word};
use recipe_data::Recipe;
use recipe_lexer::Token;
use recipe_statements::ClassItem;
use std::alloc::{AllocError, Global};

/// Nothing was read yet.
fn start(alloc: Global, name: &str) -> Result<State, AllocError>
    ensures { IfOk result (λ state. state ≡ start_recipe name.now) }
{
    Ok(State {
        heads: List::new(alloc),
        declared: Names::new(alloc),
        recipe: Recipe {
            name: Word::new(alloc, name)?,
            versions: List::new(alloc),
            variants: List::new(alloc),
            depends: List::new(alloc),
            provides: List::new(alloc),
            conflicts: List::new(alloc),
            requirements: List::new(alloc),
        },
    })
}

/// The list, with no room beyond its rows.
fn fitted<T>(list: List<T>) -> List<T>
    ensures { result ≡ list }
{
    let mut rows = list.into_vec();
    rows.shrink_to_fit();
    List::from_vec(rows)
}

/// The recipe, whose lists keep no room beyond their rows: a list that grew by doubling has a third of its room empty,
/// and a repository's recipes are all kept.
fn kept(recipe: Recipe) -> Recipe
    ensures { result ≡ recipe }
{
    let Recipe {
        name,
        versions,
        variants,
        depends,
        provides,
        conflicts,
        requirements,
    } = recipe;
    Recipe {
        name,
        versions: fitted(versions),
        variants: fitted(variants),
        depends: fitted(depends),
        provides: fitted(provides),
        conflicts: fitted(conflicts),
        requirements: fitted(requirements),
    }
}

/// Counts the calls.
fn count(one: ClassItem, number: u64) -> u64
    requires { number + 1 < 2 ^ 64 }
    ensures value { result ≡ count_call one number }
    ensures room { result ≤ number + 1 }
{
    match one {
        ClassItem::With { .. } => number,
        ClassItem::Call { .. } => number + 1,
    }
}

/// All items.
fn read_items(
    alloc: Global,
    bytes: &[u8],
    tokens: &[Token],
    items: &[ClassItem],
    state: &mut State,
) -> Result<(), RecipeFault>
    ensures { Gives result state.new (read_items bytes.now tokens.now 0 items.now state.old) }
{
    let mut number = 0u64;
    for (i, one) in items.iter().enumerate() {
        match item(alloc, bytes, tokens, number, *one, state) {
            Ok(()) => number = count(*one, number),
            Err(fault) => return Err(fault),
        }
    }
    Ok(())
}

/// What a file is read as.
#[tactic(auto, unfolding(crate::specs::Recipes::recipe_of_file))]
fn read_file(alloc: Global, name: &str, bytes: &[u8]) -> Result<Recipe, RecipeFault>
    ensures { Is result (recipe_of_file name.now bytes.now) }
{
    let tokens = tokens_of(alloc, bytes)?;
    let items = items_of(alloc, bytes, tokens.as_slice())?;
    let mut state = start(alloc, name)?;
    read_items(
        alloc,
        bytes,
        tokens.as_slice(),
        items.as_slice(),
        &mut state,
    )?;
    Ok(kept(state.recipe))
}

/// The recipe of a file with these bytes, whose package has this name. It is right.
///
/// # Errors
///
/// The first fault of the tokens, else of the statements, else of the arguments and directives in their order.
pub fn read_recipe(alloc: Global, name: &str, bytes: &[u8]) -> Result<Recipe, RecipeFault>
    ensures found { IfOk result (λ recipe. recipe_of_file name.now bytes.now ≡ Ok recipe) }
    ensures right { IfOk result (λ recipe. is_right_recipe recipe ≡ true) }
    ensures fault { IfErr result (λ fault. Fails fault (recipe_of_file name.now bytes.now)) }
{
    match read_file(alloc, name, bytes) {
        Ok(recipe) => Ok(recipe),
        Err(fault) => Err(fault),
    }
}
