//! A graph without nodes, which is writable whatever is installed.

use crate::show_locks::{fault_text, lock_text};
use graph_core::Graph;
use lockfile::write_and_read;
use reuse_db::Database;
use std::alloc::{AllocError, Global};

/// What the lock file of no node and no root is read as.
pub(crate) fn nothing_answer(alloc: Global) -> Result<String, AllocError> {
    let graph = Graph::new(alloc);
    let database = Database::empty(alloc);
    match write_and_read(alloc, &graph, &database, &[]) {
        Ok(lock) => lock_text(alloc, &lock),
        Err(fault) => fault_text(alloc, &fault),
    }
}
