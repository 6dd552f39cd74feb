//! What costs mean, in the subject's words.
//!
//! What it is: laws of the definitions in `graph_rules`: which of two versions weighs less, which
//! of two places in the settings' lists, and what the first numbers of a cost vector say of a best
//! graph.
//! What it promises: no code. Who reads a definition of a weight, or changes one, finds here which
//! way it goes.
//! What it stands on: `graph_rules` for the definitions, `version_order` for the order of versions.
//! What it must not know: how costs are computed, and how a best graph is found.
#![tactic(auto)]

mod theorems;

pub use theorems::{number_laws, place_laws, version_laws};
