// A sink in memory that never fails.
ghost use Rattle.std.specs.Prelude.{◌≡◌, ◌<◌, ◌^◌, ℕ, [], ◌++◌, Some};

use crate::{Sink, SinkFault};
use std::alloc::Global;
use std::marker::Model;

/// Bytes in memory. Its count is 0 for good, so no call of it answers `Failed`.
///
/// ```text
///   new ──► nothing said; say ──► the bytes stand at the end
/// ```
#[derive(Drop)]
pub struct SteadySink {
    bytes: Vec<u8>,
}

impl Model for SteadySink {
    ghost use Rattle.std.specs.Prelude.{List, ℕ};

    ghost Value = { List ℕ };

    ghost view = { λ a. a.bytes.items };
}

impl SteadySink {
    /// A sink with nothing said.
    pub fn new(alloc: Global) -> SteadySink
        ensures { result ≡ [] }
    {
        SteadySink {
            bytes: Vec::new(alloc),
        }
    }

    /// All that was said, in order.
    pub fn said(&self) -> &[u8]
        ensures { result.now ≡ self.now }
    {
        self.bytes.as_slice()
    }
}

impl Sink for SteadySink {
    ghost said = { λ sink. Some sink };

    ghost faults = { λ _. 0 };

    ghost use Rattle.std.proofs.Common.{lit<};

    ghost faults_fit = { λ _. lit< tt };

    fn say(&mut self, _: Global, bytes: &[u8]) -> Result<(), SinkFault> {
        Ok(self.bytes.extend_from_slice(bytes)?)
    }
}
