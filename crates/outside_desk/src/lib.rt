//! What stands outside of the program: a desk of files, and a sink that lines are said to.
//! Promises, for any desk or sink: what each call does to the content, and the cause of each fault,
//! by counts. Has three of each: in memory with faults on demand, in memory without faults, and the
//! machine's own. Stands on: std alone. Only `RealDesk`, `RealSink`, `file_id` and what stands in
//! `real_*` below them reach the machine. What that holds is not known: `RealDesk` is supposed to
//! hold files, any ones, and tells these as long as the machine answers as they have it. Must not
//! know: what the files mean, or who reads them.
#![tactic(auto)]

mod calls;
mod desk;
mod fault;
mod file_map;
mod memory_desk;
mod memory_sink;
mod names;
mod pieces;
mod real_desk;
mod real_files;
mod real_paths;
mod real_puts;
mod real_sink;
mod sink;
mod steady_desk;
mod steady_sink;
mod supposed;
mod whole;

pub use desk::Desk;
pub use fault::{DeskFault, ReadFault, SinkFault};
pub use memory_desk::MemoryDesk;
pub use memory_sink::MemorySink;
pub use real_desk::RealDesk;
pub use real_paths::{FileId, file_id};
pub use real_sink::RealSink;
pub use sink::Sink;
pub use steady_desk::SteadyDesk;
pub use steady_sink::SteadySink;
pub use supposed::Supposed;
pub use whole::read_whole;
