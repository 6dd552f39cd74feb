//! Scenarios: one text file says what a run is given, and what it has to answer, to say and to
//! leave.
//!
//! What it is: the reader of such files, whose sections stand behind lines `-- NAME --`.
//! It promises: `read_scenario` gives what the text says, which is a definition over its lines, or
//! the first fault with its line. It stands on `plain_data` and std.
//! It must not know: what runs a scenario, which answers there are, or where its file came from.
#![tactic(auto)]

mod device;
mod draft;
mod entry;
mod fault;
mod kind;
mod line;
mod mark;
mod quote;
mod quote_step;
mod read;
mod scenario;

pub use device::Device;
pub use fault::{Fault, FaultKind, ScenarioError};
pub use read::read_scenario;
pub use scenario::Scenario;
