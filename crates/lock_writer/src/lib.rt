//! The writer of lock files.
//!
//! What it is: the hashes of a graph's nodes, and the text of a lock file.
//! What it promises: the text is a function of the graph, the database and the roots; the hash of a
//! node that is built or external covers those of its children.
//! What it stands on: `graph_core`, and `reuse_db` for records and their canonical texts;
//! `spec_grammar` for the texts of roots.
//! What it must not know: where the text goes, and whether the graph is valid.
#![tactic(auto)]

mod children;
mod hashes;
mod lock;
mod node;
mod record;
mod test;
mod theorems;

pub use hashes::node_hashes;
pub use lock::write_lock;
pub use test::can_be_written;
pub use theorems::hash_laws;
