//! Recipes in byte order of their names, as they are read of files.

ghost use Rattle.std.specs.Prelude.{◌≡◌, [], true, List, IfOk, IfSome};
ghost use Rattle.std.specs.List.{list_all};
ghost use Rattle.recipe_data.specs.Right.{is_right_recipe};
ghost use Rattle.recipe_data.specs.declared.recipe.Recipe.{Recipe};
ghost use Rattle.virtuals.specs.Virtuals.{AreInOrder};

use keyed_lists::insert;
use recipe_data::Recipe;
use recipe_reader::{RecipeFault, RecipeFile, read_recipe};
use std::alloc::{AllocError, Global};

/// Puts a recipe among others; of two with one name the first stays.
fn put(recipes: &mut Vec<Recipe>, recipe: Recipe) -> Result<(), AllocError>
    requires order { AreInOrder recipes.old.items }
    requires right { list_all is_right_recipe recipes.old.items ≡ true }
    requires one { is_right_recipe recipe ≡ true }
    ensures order { AreInOrder recipes.new.items }
    ensures right { list_all is_right_recipe recipes.new.items ≡ true }
{
    insert(recipes, recipe)?;
    Ok(())
}

/// The recipes of these files, or the fault of the first that has one.
pub(crate) fn recipes_of(alloc: Global, files: &[RecipeFile]) -> Result<Vec<Recipe>, RecipeFault>
    ensures order { IfOk result (λ recipes. AreInOrder recipes.items) }
    ensures right { IfOk result (λ recipes. list_all is_right_recipe recipes.items ≡ true) }
{
    let mut recipes = Vec::new(alloc);
    for file in files {
        match read_recipe(alloc, file.name.as_str(), &file.bytes) {
            Ok(recipe) => put(&mut recipes, recipe)?,
            Err(fault) => return Err(fault),
        }
    }
    Ok(recipes)
}
