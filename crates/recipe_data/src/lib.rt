//! Recipes as data: the directives of a package, each with the condition under which it holds.
//!
//! What it is: the rows of a recipe, one type for each directive that is read, and `Recipe`, which has them all.
//! What it promises: a row is seen as a plain record, so a duplicate equals its original and `same` is equality;
//! recipes may be lent to threads, and handed back by them.
//! What it stands on: `spec_grammar` for specs, `graph_core` for the kinds of a dependency, and what these stand on.
//! What it must not know: the text of a recipe, settings, and what makes a graph valid.
#![tactic(auto)]

mod exact;
mod recipe;

pub use graph_core::{
    Bits, Compiler, Graph, Node, ValueSet, VersionSet, find, heads_of, reached, reaches,
};
pub use recipe::{ConflictRow, DependRow, ProvideRow, Recipe, RequireRow, VariantRow, VersionRow};
pub use spec_grammar::{Condition, Part, Spec, TargetItem};
