//! The settings of a site, read from their JSON file.
//!
//! What it is: the reader of the file of settings.
//! What it promises: a file is read as what it says, or refused at its first fault, with its
//! pointer.
//! What it stands on: `site_settings` for what is read, `json_readers` and `json_texts`, the
//! grammar of specs and the table of targets.
//! What it must not know: recipes, and what the settings are asked for.
#![tactic(auto)]

mod external;
mod fault;
mod keys;
mod lists;
mod package;
mod parser;
mod read;
mod required;
mod stop;
mod theorems;
mod versions;

pub use fault::SettingsFault;
pub use read::read_settings;
pub use theorems::{settings_laws, worked_settings};
