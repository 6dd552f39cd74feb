//! The settings of a site as data: its machine, its compilers, and what is preferred of packages.
//!
//! What it is: the type `Settings` and what it consists of, and the standard settings.
//! What it promises: an entry is seen as a plain record, so a duplicate equals its original and
//! `same` is equality; `Settings::standard` is the standard; settings may be lent to threads, and
//! handed back by them.
//! What it stands on: `target_table` for targets, `graph_core` for compilers, `spec_grammar` for
//! what is asked of packages, and what these stand on.
//! What it must not know: the text of settings, recipes, and what makes a graph valid.
#![tactic(auto)]

mod exact;
mod settings;
pub mod standard;

pub use settings::{CompilerEntry, ExternalEntry, PackageEntry, RequireEntry, Settings};
