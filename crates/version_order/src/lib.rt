//! Versions of packages and sets of them, ordered and matched as Spack does it.
//!
//! What it is: the readers of a version's text and of a set's, the total order of versions, the prefix
//! test, and the tests whether a set contains a version and whether two sets overlap.
//! What it promises: the contract of each call, with the laws and worked rows of `theorems` and
//! `set_theorems`.
//! What it stands on: `plain_data` for texts and lists that are kept, `thiserror` for a fault's message.
//! What it must not know: packages, specs and files, which stand above it.
//!
//! Spack's documentation has the rules: "Version specifier" among its spec syntax, and "Version
//! comparison" in its packaging guide. Where that leaves a case open, `Version::compare`,
//! `Item::contains` and `Item::overlaps` decide.
#![tactic(auto)]

mod component;
mod ends;
mod fault;
mod item;
mod order;
mod pieces;
mod read_set;
mod reading;
mod scan;
mod set;
mod set_theorems;
mod theorems;
mod version;
mod write_set;

pub use fault::{VersionFault, VersionSetFault};
pub use item::Item;
pub use reading::is_start;
pub use scan::{Place, Sign, list_front, list_machine};
pub use set::VersionSet;
pub use set_theorems::{set_laws, set_reading_laws, worked_faults, worked_sets};
pub use theorems::{cutting_laws, laws, reading_laws, worked_order};
pub use version::Version;
