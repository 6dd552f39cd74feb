//! Targets in order of preference, each with the targets that it builds on.
//!
//! It promises: a `TargetTable` is seen as its entries, has none of the faults that `new` names,
//! and tells of places, ancestors and ranges without memory; `fault_laws` and `range_laws` tie what
//! is computed to what it means. It stands on `reachability` for ancestors. It must not know where
//! the entries come from.
#![tactic(auto)]

mod arcs;
mod entry;
mod fault;
mod places;
mod table;
mod theorems;

pub use entry::TargetEntry;
pub use fault::TargetFault;
pub use table::TargetTable;
pub use theorems::{fault_laws, range_laws, worked_targets};
