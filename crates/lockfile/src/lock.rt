//! Reading a lock file.
ghost use Rattle.std.specs.Prelude.{◌≡◌, Ok, IfOk, IfErr};
ghost use Rattle.serde_json.specs.View.{view};
ghost use Rattle.lockfile.specs.Faults.{IsLockFaultOf, IsLockFault, IsFileFault};
ghost use Rattle.lockfile.specs.Files.{AreProvided, file_at};
ghost use Rattle.lockfile.specs.Locks.{IsLock, IsLockOf};

use crate::LockFault;
use crate::checks::check_file;
use crate::file::{File, FileForm};
use crate::graph::{graph_of, hashes_of};
use crate::names::names_by_hash;
use graph_core::Graph;
use json_readers::{JsonFault, Reader, read_json};
use plain_data::{List, Word};
use serde_json::Value;
use spec_hash::Hash;
use std::alloc::Global;

/// What a lock file says.
#[derive(Debug, Drop)]
pub struct Lock {
    pub graph: Graph,
    /// Each requested spec as it is written, and the hash of the node that it became, in order.
    pub roots: List<(Word, Hash)>,
    /// Each node's name with its hash, in byte order of names.
    pub hashes: List<(Word, Hash)>,
    /// That of the format, 1 or 2; in the first no edge names virtuals.
    pub version: u64,
}

/// Reads a lock file: JSON of the form that `write_lock` writes, with nodes in any order.
///
/// A hash of a dependency or a root names the first node that has it.
///
/// # Errors
///
/// The first of these kinds that the file has anywhere, at its first place. `NotJson`: the bytes
/// are no JSON text, or nest deeper than 127. `WrongKind`: a value has not its form; a value comes
/// before what it holds, lists go from the front, and the keys of an object in byte order, missing
/// and unknown ones among them. `TwiceNamed`, `HashDiffers`, `Dangling`: as the faults say; of
/// children before roots.
pub fn read_lock(alloc: Global, bytes: &[u8]) -> Result<Lock, LockFault>
    ensures found { IfOk result (IsLock bytes.now) }
    ensures fault { IfErr result (IsLockFault bytes.now) }
{
    match read_json(alloc, bytes)? {
        Some(value) => read_value(alloc, &value),
        None => Err(LockFault::NotJson),
    }
}

fn read_value(alloc: Global, value: &Value) -> Result<Lock, LockFault>
    ensures found { IfOk result (λ lock. (file : File) × (file_at (view value.now) ≡ Ok file)
        × IsLockOf file lock) }
    ensures fault { IfErr result (IsLockFaultOf (view value.now)) }
{
    match FileForm.read(alloc, value) {
        Ok(file) => lock_of(alloc, file),
        Err(JsonFault::Misfit(misfit)) => Err(LockFault::WrongKind(misfit.at)),
        Err(JsonFault::OutOfMemory) => Err(LockFault::OutOfMemory),
    }
}

/// The graph of a file whose values have their forms, or the first fault of the whole file.
fn lock_of(alloc: Global, file: File) -> Result<Lock, LockFault>
    requires { AreProvided file }
    ensures found { IfOk result (IsLockOf file) }
    ensures fault { IfErr result (IsFileFault file) }
{
    let names = names_by_hash(alloc, file.nodes.as_slice())?;
    check_file(alloc, &file, &names)?;
    let graph = graph_of(alloc, &file, &names)?;
    let hashes = hashes_of(alloc, file.nodes.as_slice())?;
    Ok(Lock {
        graph,
        roots: file.roots,
        hashes,
        version: file.version,
    })
}
