// A desk that hands out one byte at a time.
ghost use Rattle.std.specs.Prelude.{None};
ghost use Rattle.std.proofs.Common.{lit<};

use outside_desk::{Desk, DeskFault, SteadyDesk};
use std::alloc::{AllocError, Global};

/// Files in memory, of which it tells nothing. Each reading gives one byte at most, and each put is
/// kept in a list of its own too.
#[derive(Drop)]
pub struct OneByteDesk {
    files: SteadyDesk,
    pub puts: Vec<(String, Vec<u8>)>,
}

impl OneByteDesk {
    pub fn new(alloc: Global) -> OneByteDesk {
        OneByteDesk {
            files: SteadyDesk::new(alloc),
            puts: Vec::new(alloc),
        }
    }

    pub fn add(&mut self, path: &str, bytes: &[u8]) -> Result<(), AllocError> {
        self.files.add(path, bytes)
    }

    pub fn file(&self, path: &str) -> Option<&[u8]> {
        self.files.file(path)
    }
}

impl Desk for OneByteDesk {
    ghost files = { λ _. None };

    ghost faults = { λ _. 0 };

    ghost put_faults = { λ _. 0 };

    ghost faults_fit = { λ _. lit< tt };

    ghost put_faults_fit = { λ _. lit< tt };

    fn read_at(
        &mut self,
        alloc: Global,
        path: &str,
        from: u64,
        out: &mut [u8],
    ) -> Result<usize, DeskFault> {
        let count = out.len().min(1);
        self.files.read_at(alloc, path, from, &mut out[..count])
    }

    fn list(&mut self, alloc: Global, path: &str) -> Result<Vec<String>, DeskFault> {
        self.files.list(alloc, path)
    }

    fn put(&mut self, alloc: Global, path: &str, bytes: &[u8]) -> Result<(), DeskFault> {
        let kept = (
            String::from_str(alloc, path)?,
            Vec::from_slice(alloc, bytes)?,
        );
        self.puts.push(kept).map_err(AllocError::from)?;
        self.files.put(alloc, path, bytes)
    }
}
