//! Virtuals: names that recipes provide, each with the packages that may provide it.
//!
//! What it is: `Providers`, a table that is asked in a search in a sorted list; `ProvidedRows`, the
//! rows of each recipe by the virtuals that they name.
//! What it promises: it has just the pairs that the recipes say, and no memory is needed to ask it.
//! What it stands on: `recipe_data` for recipes, `keyed_lists` for lists in order.
//! What it must not know: graphs, and whether a condition of a `provides` holds.
#![tactic(auto)]

mod clash;
mod provided;
mod providers;
mod theorems;

pub use clash::ProvidersFault;
pub use provided::ProvidedRows;
pub use providers::Providers;
pub use recipe_data::{
    Bits, Compiler, Condition, ConflictRow, DependRow, Graph, Node, Part, ProvideRow, Recipe,
    RequireRow, Spec, TargetItem, ValueSet, VariantRow, VersionSet, find, heads_of, reached,
    reaches,
};
pub use theorems::virtual_laws;
