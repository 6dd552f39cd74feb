//! The concretizer: from the words of a command line and the files of a desk to the lock file.
//!
//! What it is: `run`, the top call.
//! What it promises: what `specs/Headline.antt` says of each answer, for any desk and any sinks.
//! What it stands on: `run_output` for what is read and written.
//! What it must not know: which machine, files or streams are behind the desk and the sinks.
#![tactic(auto)]

mod attempt;
mod steady;
mod top;

pub use run_output::{Command, Log, Progress, Stage, Status, Untold, Work, read_command};
pub use steady::run_steady;
pub use top::run;
