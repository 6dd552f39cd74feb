//! Installed packages as data.
//!
//! What it is: `Record`, an installed package, with the node that stands for it, and `Database`, a list of records.
//! What it promises: what a `Database` is seen as.
//! What it stands on: `graph_core` for compilers and kinds of dependencies, `spec_hash`.
//! What it must not know: recipes, settings, and which graphs are valid.
#![tactic(auto)]

mod database;
mod fault;
mod installed;
mod places;
mod record;
mod text;

pub use database::Database;
pub use fault::DbFault;
pub use installed::installed_node;
pub use record::{Dependency, Record};
pub use text::{canonical, record_value};
