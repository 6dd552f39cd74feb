//! Paths over arcs: whether one key reaches another.
//!
//! It promises: `reached` and `PathTable` tell just what paths of one or more arcs lead to, each arc
//! followed once a search; the laws of `theorems` say what holds of all paths, of arcs without a cycle,
//! and inside strong components. It stands on `plain_data`. It must not know what the keys are.
#![tactic(auto)]

mod bits;
mod search;
mod table;
mod theorems;

pub use bits::Bits;
pub use search::{heads_of, reached};
pub use table::PathTable;
pub use theorems::{component_laws, level_laws, path_laws, worked_paths};
