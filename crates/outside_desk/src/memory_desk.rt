// A desk in memory whose calls fail by a list.
ghost use Rattle.std.specs.Prelude.{◌≡◌, [], ◌∷◌, ◌++◌, ◌+◌, ◌-◌, ◌^◌, ◌<◌, ℕ, min, map as map_list, Some, IfOk, OnOk, OnErr, IsErrOf};
ghost use Rattle.std.specs.Option.{option_copied};
ghost use Rattle.std.specs.FinMap as map;
ghost use Rattle.std.specs.String.{string_bytes};
ghost use Rattle.outside_desk.specs.Files.{ReadsAt};
ghost use Rattle.outside_desk.specs.Listing.{Lists, AreInOrder};

use crate::calls::Calls;
use crate::file_map::FileMap;
use crate::pieces::copy_piece;
use crate::{Desk, DeskFault};
use std::alloc::{AllocError, Global};

/// Files in memory. It counts its calls of `read_at`, `list` and `put` from 0, and fails those of a
/// list.
///
/// ```text
///   new ──► files empty, next call 0, no call is to fail, no faults
///   add, fail_call, fail_late ──► one file, one number more; no call counted
///   read_at, list, put ──► next call + 1 ── number in the list: Failed, faults or put_faults + 1
/// ```
///
/// A put of a number of `fail_call` leaves the file as it was, and one of `fail_late` fails once
/// the file holds the bytes.
#[derive(Drop)]
pub struct MemoryDesk {
    map: FileMap,
    calls: Calls,
    late: Vec<u64>,
    faults: u64,
    put_faults: u64,
    ghost faults_fit: { faults < 2 ^ 64 },
    ghost put_faults_fit: { put_faults < 2 ^ 64 },
}

impl MemoryDesk {
    ghost use Rattle.outside_desk.specs.MemoryDesk.{desk_state};

    /// A desk with no files, no calls that are to fail and no faults.
    pub fn new(alloc: Global) -> MemoryDesk
        ensures { desk_state result ≡ record {
          files = map.empty;
          next_call = 0;
          failing =
              [];
          late =
              [];
          faults = 0;
          put_faults = 0;
        } }
    {
        MemoryDesk {
            map: FileMap::new(alloc),
            calls: Calls::new(alloc),
            late: Vec::new(alloc),
            faults: 0,
            put_faults: 0,
        }
    }

    /// Makes the file at the path hold the bytes, which is no call. Where memory is short, nothing
    /// changes.
    pub fn add(&mut self, path: &str, bytes: &[u8]) -> Result<(), AllocError>
        ensures ok { OnOk result (desk_state self.new ≡ record (desk_state self.old) {
          files =
              map.insert (desk_state self.old).files path.now bytes.now;
        }) }
        ensures err { OnErr result (desk_state self.new ≡ desk_state self.old) }
    {
        self.map.put(path, bytes)
    }

    /// Lets the call of that number fail. The first call has the number 0. Where memory is short,
    /// nothing changes.
    pub fn fail_call(&mut self, call: u64) -> Result<(), AllocError>
        ensures ok { OnOk result (desk_state self.new ≡ record (desk_state self.old) {
          failing =
              (desk_state self.old).failing ++ call ∷ [];
        }) }
        ensures err { OnErr result (desk_state self.new ≡ desk_state self.old) }
    {
        self.calls.fail(call)
    }

    /// Lets the call of that number, where it is a put, fail once the file holds the bytes. Any
    /// other call does not fail by this. Where memory is short, nothing changes.
    pub fn fail_late(&mut self, call: u64) -> Result<(), AllocError>
        ensures ok { OnOk result (desk_state self.new ≡ record (desk_state self.old) {
          late =
              (desk_state self.old).late ++ call ∷ [];
        }) }
        ensures err { OnErr result (desk_state self.new ≡ desk_state self.old) }
    {
        Ok(self.late.push(call)?)
    }

    /// The bytes of the file at the path, or `None` where there is none.
    pub fn file(&self, path: &str) -> Option<&[u8]>
        ensures { option_copied result ≡ map.get (desk_state self.now).files path.now }
    {
        self.map.get(path)
    }

    /// How often a reading or a listing failed.
    pub fn faults(&self) -> u64
        ensures { result ≡ (desk_state self.now).faults }
    {
        self.faults
    }

    /// How often a put failed.
    pub fn put_faults(&self) -> u64
        ensures { result ≡ (desk_state self.now).put_faults }
    {
        self.put_faults
    }
}

impl Desk for MemoryDesk {
    ghost use Rattle.outside_desk.specs.MemoryDesk.{desk_state, Looks, Puts};

    ghost files = { λ desk. Some desk.map };

    ghost faults = { λ desk. desk.faults };

    ghost put_faults = { λ desk. desk.put_faults };

    ghost faults_fit = { λ desk. desk.faults_fit };

    ghost put_faults_fit = { λ desk. desk.put_faults_fit };

    fn read_at(
        &mut self,
        _: Global,
        path: &str,
        from: u64,
        out: &mut [u8],
    ) -> Result<usize, DeskFault>
        ensures bytes { ReadsAt (map.get (desk_state self.old).files path.now) from out.new result }
        ensures memory { IsErrOf result DeskFault.OutOfMemory → ⊥ }
        ensures calls { Looks (desk_state self.old) (desk_state self.new) result }
    {
        if self.calls.fails() {
            self.faults = self.faults.saturating_add(1);
            return Err(DeskFault::Failed);
        }
        match self.map.get(path) {
            Some(file) => Ok(copy_piece(file, from, out)),
            None => Err(DeskFault::Missing),
        }
    }

    fn list(&mut self, _: Global, path: &str) -> Result<Vec<String>, DeskFault>
        ensures names { Lists (desk_state self.old).files path.now result }
        ensures order { IfOk result (λ names. AreInOrder (map_list string_bytes names.items)) }
        ensures calls { Looks (desk_state self.old) (desk_state self.new) result }
    {
        if self.calls.fails() {
            self.faults = self.faults.saturating_add(1);
            return Err(DeskFault::Failed);
        }
        self.map.list(path)
    }

    fn put(&mut self, _: Global, path: &str, bytes: &[u8]) -> Result<(), DeskFault>
        ensures calls { Puts (desk_state self.old) (desk_state self.new) path.now bytes.now result }
    {
        let is_late = self.late.contains(&self.calls.next);
        if self.calls.fails() {
            self.put_faults = self.put_faults.saturating_add(1);
            return Err(DeskFault::Failed);
        }
        self.map.put(path, bytes)?;
        if is_late {
            self.put_faults = self.put_faults.saturating_add(1);
            return Err(DeskFault::Failed);
        }
        Ok(())
    }
}
