//! Valid graphs and their lock files.
//!
//! What it is: a law: a graph that is valid for a problem whose texts have their forms can be
//! written as a lock file, and is read again as itself, where no two of its nodes have one hash.
//! What it promises: no code. With `lockfile::again_laws` it says of each lock file that was written
//! of such a graph that it is read as just that graph.
//! What it stands on: `graph_rules` for what is valid, `lockfile` for what is read again.
//! What it must not know: how a graph is found, and where its file goes.
#![tactic(auto)]

mod theorems;

pub use theorems::writable_laws;
