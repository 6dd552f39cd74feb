//! Recipes: the third stage of reading one, its directives.
//!
//! What it is: the items of a file one after the other, and the rows that they give.
//! What it promises: a file has exactly the recipe, or the first fault, that the definitions give; so have many files,
//! whatever the number of threads that read them.
//! What it stands on: `recipe_statements` for the calls and heads of a file, `directive_arguments` for what the calls
//! say, `recipe_data` for the rows.
//! What it must not know: other recipes, settings, and what is done with a recipe.
#![tactic(auto)]

mod beside;
mod depends;
mod fault;
mod files;
mod item;
mod parts;
mod read;
mod row;
mod stage;
mod state;
mod theorems;
mod tokens;

pub use fault::RecipeFault;
pub use files::{RecipeFile, read_recipes, read_recipes_on};
pub use read::read_recipe;
pub use state::{Head, State};
pub use theorems::recipe_laws;
