//! Lock files: their reader, with `lock_writer` their writer, and that what was written is read
//! again.
//!
//! What it is: `read_lock`, which gives the graph that a lock file says with its roots and hashes;
//! `write_and_read`, the writer and the reader one after the other; laws on both.
//! What it promises: a file is read as what it says, or refused at its first fault; the text that
//! is written for a writable graph is read as that graph with its roots, without a fault.
//! What it stands on: `record_reader` for what a node has in common with a record, `reuse_db` for
//! hashes, `graph_core` for graphs, `json_readers`, and `lock_writer`.
//! What it must not know: whether the graph is valid, and what is installed.
#![tactic(auto)]

mod again;
mod checks;
mod children;
mod fault;
mod file;
mod graph;
mod lock;
mod names;
mod node;
mod theorems;
mod written_again;

pub use again::write_and_read;
pub use fault::LockFault;
pub use file::File;
pub use lock::{Lock, read_lock};
pub use lock_writer::{can_be_written, node_hashes, write_lock};
pub use node::{Body, LockedNode, NodeHead};
pub use theorems::lock_laws;
pub use written_again::{again_laws, file_laws, graph_laws, node_laws, written_laws};
