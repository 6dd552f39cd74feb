//! What specs and conditions mean at a node of a graph.
//!
//! What it is: tests of one node against a part of a spec, and of a node of a graph against a spec,
//! a condition or the definitions of a variant.
//! What it promises: `meets`, `provides`, `holds`, `all_hold` and `governing` answer what the
//! definitions of these names in `specs/` compute; a recipe, a virtual and the definitions of a
//! variant are found in a search in a sorted list.
//! What it stands on: `recipe_data` for recipes, `virtuals`, `graph_core` for graphs and paths,
//! `target_table`, `keyed_lists` for definitions by their variants.
//! What it must not know: settings besides the platform and the targets, and what makes a graph
//! valid.
#![tactic(auto)]

mod at_node;
mod definitions;
mod in_graph;
mod part;
mod paths;
mod search;
mod theorems;
mod world;

pub use at_node::{meets, meets_rest, provides, row_provides};
pub use definitions::Definitions;
pub use in_graph::{all_hold, asked_node, governing, holds, suits};
pub use part::{is_compiler, is_target, meets_platform};
pub use paths::Paths;
pub use theorems::condition_laws;
pub use virtuals::{
    ConflictRow, DependRow, Part, ProvidedRows, Providers, Recipe, RequireRow, Spec,
};
pub use world::World;
