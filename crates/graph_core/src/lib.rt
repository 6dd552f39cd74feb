//! Graphs of packages: nodes by name, edges by their ends, and the provider of each virtual.
//!
//! It promises: a `Graph` is seen as three lists in order, so graphs with the same content are
//! equal and each call is a look-up in them; `reaches` and `Reach` tell of paths of one or more
//! edges; a graph is the one that its look-ups give. It stands on `keyed_lists`, `reachability` and
//! the crates of its attributes. It must not know recipes, settings, or which graphs are valid.
#![tactic(auto)]

mod exact;
mod graph;
mod node;
mod paths;
mod reach;
mod theorems;

pub use graph::Graph;
pub use keyed_lists::{Bits, Keyed, ValueSet, VariantKind, find, heads_of, reached};
pub use node::{Compiler, Edge, Kinds, Node, Origin, is_built};
pub use paths::{known_place, reaches};
pub use reach::Reach;
pub use theorems::{given_laws, graph_laws, path_laws, worked_graphs};
pub use version_order::{Version, VersionFault, VersionSet, reading_laws};
