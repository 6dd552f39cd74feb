//! A lock file, written and read.
ghost use Rattle.std.specs.Prelude.{◌≡◌, IfErr, IfOk};
ghost use Rattle.lock_writer.specs.Texts.{CanBeWritten};
ghost use Rattle.lockfile.specs.declared.fault.LockFault.TheVariants.{OutOfMemory};
ghost use Rattle.lockfile.specs.Writable.{IsWritable, lock_of};

use crate::written_again::again_laws;
use crate::{Lock, LockFault, lock_laws, read_lock, write_lock};
use graph_core::Graph;
use reuse_db::Database;
use spec_grammar::Spec;
use std::alloc::Global;

/// Writes the lock file of a writable graph, and reads it again: as the graph itself, with its
/// roots.
///
/// # Errors
///
/// `OutOfMemory` alone.
pub fn write_and_read(
    alloc: Global,
    graph: &Graph,
    database: &Database,
    roots: &[Spec],
) -> Result<Lock, LockFault>
    requires written { CanBeWritten graph.now database.now roots.now }
    requires writable { IsWritable graph.now database.now }
    ensures same { IfOk result (λ lock. lock ≡ lock_of graph.now roots.now) }
    ensures fault { IfErr result (λ fault. fault ≡ OutOfMemory) }
{
    again_laws();
    lock_laws();
    let _nodes = graph.nodes();
    let _records = database.records();
    let text = write_lock(alloc, graph, database, roots)?;
    read_lock(alloc, text.as_slice())
}
