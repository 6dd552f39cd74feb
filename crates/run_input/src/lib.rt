//! What a run reads before the command's own work.
//!
//! What it is: `read_input` of a command over a desk: the problem that its recipes, settings and
//! specs pose, with the names that nodes of its graphs may have; `read_query` of a command that
//! looks for installed packages: the problem without roots, and the condition that the packages are
//! to meet. Below them `read_bytes` of one file, `read_site` of the settings, `read_installed` of
//! the database, `read_sources` of the recipe files, and the types of what was read, which keep
//! what holds of it (`parts.rt`).
//! What it promises: exactly this, or the refusal that is due first, whatever the desk; a device's
//! fault only where its count rose.
//! What it stands on: `outside_desk` for files, the reader of each text, `problem` and
//! `possible_closure` for what they pose, and `run_answers` for refusals.
//! What it must not know: what a command does with it.
#![tactic(auto)]

mod bytes;
mod file;
mod input;
mod installed;
mod one_database;
mod one_input;
mod one_site;
mod parts;
mod paths;
mod query;
mod read;
mod recipes;
mod repository;
mod roots;
mod site;
mod sources;
mod sources_in_order;
mod stock;

pub use bytes::read_bytes;
pub use file::WholeFile;
pub use input::{Input, read_input};
pub use installed::read_installed;
pub use parts::{ReadRecipes, ReadRecords, ReadRoots, ReadSettings};
pub use query::{Query, read_query};
pub use read::read_sources;
pub use sources_in_order::source_laws;
// What crates above answer with.
pub use one_database::installed_laws;
pub use one_input::input_laws;
pub use run_answers::{ReadStop, Refusal};
// What crates above answer with.
pub use one_site::site_laws;
pub use run_words::{Command, Status, Stop, Work, WriteStop, is_dash, read_command};
pub use site::read_site;
pub use sources::Sources;
pub use stock::Stock;
