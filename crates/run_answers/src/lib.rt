//! What a run answers: its status, why it stops before its end, and what is said of that.
//!
//! What it is: `Status` with the exit numbers, `Refusal` of input, `Stop`s of the words, of reading
//! and of writing, and their lines; the texts of the faults inside them; `write_reasons`, a line
//! for each of some demands of a problem.
//! What it promises: each refusal and each stop has exactly the status and the line that the
//! definitions give. A fault's text is its name and its fields in order, with one space between
//! them, and so is that of a fault inside another one.
//! What it stands on: the crates whose faults it writes; `problem` for demands, `spec_grammar` for
//! the texts of roots, and `outside_desk` for what a call that only reads leaves of a desk.
//! What it must not know: which commands there are, when they refuse, and why demands are named.
#![tactic(auto)]

mod line_fault;
mod lines;
mod lock_faults;
mod recipe_faults;
mod refusal;
mod root_fault;
mod settings_faults;
mod spec_faults;
mod status;
mod stop;
mod worked;

pub use graph_rules::Rule;
pub use line_fault::LineFault;
pub use lines::{write_reasons, write_root};
pub use lock_faults::{lock_fault_text, rule_name};
pub use lockfile::LockFault;
pub use recipe_faults::recipe_fault_text;
pub use recipe_reader::RecipeFault;
// The faults themselves, so that crates above need not name the crates that have them.
pub use record_reader::fault_text as database_fault_text;
pub use refusal::Refusal;
pub use reuse_db::DbFault;
pub use root_fault::RootFault;
pub use settings_faults::settings_fault_text;
pub use settings_reader::SettingsFault;
pub use spec_faults::spec_fault_text;
pub use spec_grammar::SpecFault;
pub use status::Status;
pub use stop::{ReadStop, Stop, WriteStop};
pub use worked::worked_fault_texts;
