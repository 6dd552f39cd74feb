//! The reader of records, and of databases of installed packages, which are lists of them.
//!
//! What it is: readers of a record's keys, put together from those of `json_readers`;
//! `read_database`, which gives the records that a file says; `fault_text`, which says a file's
//! fault.
//! What it promises: the record that a value says, or the first value that has not its form; a file
//! is read as just the records that it says, or refused at its first fault.
//! What it stands on: `reuse_db` for records without a fault, `json_readers` and `json_texts` for
//! how values are read.
//! What it must not know: where a file stands, what else a record's own file says of it (a lock
//! file has two keys more), and which records a problem keeps.
#![tactic(auto)]

mod compiler;
mod dependency;
mod file;
mod hash;
mod kinds;
mod read;
mod record;
mod texts;
mod theorems;
mod variants;

pub use compiler::CompilerForm;
pub use dependency::{DependencyForm, VirtualsForm};
pub use file::{FileVersion, RecordsForm, may_name_virtuals};
pub use hash::HashText;
pub use kinds::KindsForm;
pub use read::read_database;
pub use record::{Front, Middle, RecordForm, read_back, read_front, read_middle};
pub use texts::fault_text;
pub use theorems::database_laws;
pub use variants::ValuesForm;
