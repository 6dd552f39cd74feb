// A sink in memory whose calls fail by a list.
ghost use Rattle.std.specs.Prelude.{◌≡◌, [], ◌∷◌, ◌++◌, ◌+◌, ◌-◌, ◌^◌, ◌<◌, ℕ, min, Some, OnOk, OnErr};

use crate::calls::Calls;
use crate::{Sink, SinkFault};
use std::alloc::{AllocError, Global};

/// Bytes in memory. It counts its calls of `say` from 0, and fails those of a list.
///
/// ```text
///   new ──► nothing said, next call 0, no call is to fail, no faults
///   fail_call ──► one number more; no call counted
///   say ──► next call + 1 ── number in the list: Failed, faults + 1, nothing appended
/// ```
#[derive(Drop)]
pub struct MemorySink {
    bytes: Vec<u8>,
    calls: Calls,
    faults: u64,
    ghost faults_fit: { faults < 2 ^ 64 },
}

impl MemorySink {
    ghost use Rattle.outside_desk.specs.MemorySink.{sink_state};

    /// A sink with nothing said, no calls that are to fail and no faults.
    pub fn new(alloc: Global) -> MemorySink
        ensures { sink_state result ≡ record {
          said = [];
          next_call = 0;
          failing =
              [];
          faults = 0;
        } }
    {
        MemorySink {
            bytes: Vec::new(alloc),
            calls: Calls::new(alloc),
            faults: 0,
        }
    }

    /// Lets the call of that number fail. The first call has the number 0. Where memory is short,
    /// nothing changes.
    pub fn fail_call(&mut self, call: u64) -> Result<(), AllocError>
        ensures ok { OnOk result (sink_state self.new ≡ record (sink_state self.old) {
          failing =
              (sink_state self.old).failing ++ call ∷ [];
        }) }
        ensures err { OnErr result (sink_state self.new ≡ sink_state self.old) }
    {
        self.calls.fail(call)
    }

    /// All that was said, in order.
    pub fn said(&self) -> &[u8]
        ensures { result.now ≡ (sink_state self.now).said }
    {
        self.bytes.as_slice()
    }

    /// How often a saying failed.
    pub fn faults(&self) -> u64
        ensures { result ≡ (sink_state self.now).faults }
    {
        self.faults
    }
}

impl Sink for MemorySink {
    ghost use Rattle.outside_desk.specs.MemorySink.{sink_state, Says};

    ghost said = { λ sink. Some sink.bytes.items };

    ghost faults = { λ sink. sink.faults };

    ghost faults_fit = { λ sink. sink.faults_fit };

    fn say(&mut self, _: Global, bytes: &[u8]) -> Result<(), SinkFault>
        ensures { Says (sink_state self.old) (sink_state self.new) bytes.now result }
    {
        if self.calls.fails() {
            self.faults = self.faults.saturating_add(1);
            return Err(SinkFault::Failed);
        }
        Ok(self.bytes.extend_from_slice(bytes)?)
    }
}
