//! A desk that hands out pieces, and remembers what was put and what failed.
ghost use Rattle.std.specs.Prelude.{None};

use outside_desk::{Desk, DeskFault};
use std::alloc::{AllocError, Global};

/// Another desk, of which each reading gives so many bytes at most. It tells nothing of its files.
///
/// ```text
///   new ──► nothing put, nothing failed
///   put ──► its path is the last of `puts` ── Failed: `failed_put` is its path
///   read_at, list ── Failed: `failed_reading` is its path
/// ```
#[derive(Drop)]
pub(crate) struct WatchedDesk<D> {
    /// The desk below.
    pub desk: D,
    /// How many bytes a reading gives at most.
    pub pieces: usize,
    /// The paths of all puts, in order.
    pub puts: Vec<String>,
    /// The path of the last reading or listing that failed.
    pub failed_reading: Option<String>,
    /// The path of the last put that failed.
    pub failed_put: Option<String>,
}

impl<D> WatchedDesk<D> {
    pub(crate) fn new(alloc: Global, desk: D, pieces: usize) -> WatchedDesk<D> {
        WatchedDesk {
            desk,
            pieces,
            puts: Vec::new(alloc),
            failed_reading: None,
            failed_put: None,
        }
    }
}

impl<D: Desk + Drop> Desk for WatchedDesk<D> {
    ghost files = { λ _. None };

    ghost faults = { λ watched. D.faults watched.desk };

    ghost put_faults = { λ watched. D.put_faults watched.desk };

    ghost faults_fit = { λ watched. D.faults_fit watched.desk };

    ghost put_faults_fit = { λ watched. D.put_faults_fit watched.desk };

    fn read_at(
        &mut self,
        alloc: Global,
        path: &str,
        from: u64,
        out: &mut [u8],
    ) -> Result<usize, DeskFault> {
        let kept = String::from_str(alloc, path)?;
        let count = out.len().min(self.pieces);
        let got = self.desk.read_at(alloc, path, from, &mut out[..count]);
        if let Err(DeskFault::Failed) = got {
            self.failed_reading = Some(kept);
        }
        got
    }

    fn list(&mut self, alloc: Global, path: &str) -> Result<Vec<String>, DeskFault> {
        let kept = String::from_str(alloc, path)?;
        let got = self.desk.list(alloc, path);
        if let Err(DeskFault::Failed) = &got {
            self.failed_reading = Some(kept);
        }
        got
    }

    fn put(&mut self, alloc: Global, path: &str, bytes: &[u8]) -> Result<(), DeskFault> {
        let kept = String::from_str(alloc, path)?;
        let again = String::from_str(alloc, path)?;
        self.puts.push(kept).map_err(AllocError::from)?;
        let put = self.desk.put(alloc, path, bytes);
        if let Err(DeskFault::Failed) = put {
            self.failed_put = Some(again);
        }
        put
    }
}
