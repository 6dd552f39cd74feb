// A desk in memory that never fails.
ghost use Rattle.std.specs.Prelude.{◌≡◌, ◌<◌, ◌^◌, ℕ, Some, OnOk, OnErr, IsErrOf};
ghost use Rattle.std.specs.Option.{option_copied};
ghost use Rattle.std.specs.FinMap as map;
ghost use Rattle.outside_desk.specs.Files.{ReadsAt};

use crate::file_map::FileMap;
use crate::pieces::copy_piece;
use crate::{Desk, DeskFault};
use std::alloc::{AllocError, Global};
use std::marker::Model;

/// Files in memory. Its counts are 0 for good, so no call of it answers `Failed`.
///
/// ```text
///   new ──► no files; add, put ──► the file holds the bytes; read_at, list ──► files as before
/// ```
#[derive(Drop)]
pub struct SteadyDesk {
    map: FileMap,
}

impl Model for SteadyDesk {
    ghost use Rattle.outside_desk.specs.Files.{Files, files_code};

    ghost Value = { Files };

    ghost coded = { files_code };

    ghost view = { λ a. a.map };
}

impl SteadyDesk {
    /// A desk with no files.
    pub fn new(alloc: Global) -> SteadyDesk
        ensures { result ≡ map.empty }
    {
        SteadyDesk {
            map: FileMap::new(alloc),
        }
    }

    /// Makes the file at the path hold the bytes. Where memory is short, nothing changes.
    pub fn add(&mut self, path: &str, bytes: &[u8]) -> Result<(), AllocError>
        ensures ok { OnOk result (self.new ≡ map.insert self.old path.now bytes.now) }
        ensures err { OnErr result (self.new ≡ self.old) }
    {
        self.map.put(path, bytes)
    }

    /// The bytes of the file at the path, or `None` where there is none.
    pub fn file(&self, path: &str) -> Option<&[u8]>
        ensures { option_copied result ≡ map.get self.now path.now }
    {
        self.map.get(path)
    }
}

impl Desk for SteadyDesk {
    ghost files = { λ desk. Some desk };

    ghost faults = { λ _. 0 };

    ghost put_faults = { λ _. 0 };

    ghost use Rattle.std.proofs.Common.{lit<};

    ghost faults_fit = { λ _. lit< tt };

    ghost put_faults_fit = { λ _. lit< tt };

    fn read_at(
        &mut self,
        _: Global,
        path: &str,
        from: u64,
        out: &mut [u8],
    ) -> Result<usize, DeskFault>
        ensures bytes { ReadsAt (map.get self.old path.now) from out.new result }
        ensures same { self.new ≡ self.old }
        ensures only_missing { OnErr result (IsErrOf result DeskFault.Missing) }
    {
        match self.map.get(path) {
            Some(file) => Ok(copy_piece(file, from, out)),
            None => Err(DeskFault::Missing),
        }
    }

    fn list(&mut self, _: Global, path: &str) -> Result<Vec<String>, DeskFault> {
        self.map.list(path)
    }

    fn put(&mut self, _: Global, path: &str, bytes: &[u8]) -> Result<(), DeskFault> {
        Ok(self.map.put(path, bytes)?)
    }
}
