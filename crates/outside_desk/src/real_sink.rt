// The sink of the machine, which tells no content.
ghost use Rattle.std.specs.Prelude.{◌≡◌, ◌<◌, ◌^◌, ℕ, None, OnOk, OnErr, IsErrOf};
ghost use Rattle.std.specs.Io.KnownBytes.{Appends};
ghost use Rattle.outside_desk.specs.Causes.{CountsEach};
ghost use Rattle.outside_desk.specs.RealFiles.{AppendsPart};

use crate::real_files::write_whole;
use crate::{Sink, SinkFault};
use std::alloc::Global;
use std::io::Write;

/// A writer of the machine. It tells no content, and its count rises by one at each `Failed`.
///
/// ```text
///   new ──► count 0
///   say ── Failed: count + 1
/// ```
///
/// Each error of the writer is `Failed`. It never flushes: give it a writer with no buffer of its
/// own, as the standard output.
#[derive(Drop)]
pub struct RealSink<W> {
    writer: W,
    faults: u64,
    ghost faults_fit: { faults < 2 ^ 64 },
}

impl<W: Write + Drop> RealSink<W> {
    ghost use Rattle.outside_desk.specs.RealSink.{real_sink_writer, real_sink_faults};

    /// A sink that writes to the writer, with no faults.
    pub fn new(writer: W) -> RealSink<W>
        ensures writer { real_sink_writer result ≡ writer }
        ensures faults { real_sink_faults result ≡ 0 }
    {
        RealSink { writer, faults: 0 }
    }
}

impl<W: Write + Drop> Sink for RealSink<W> {
    ghost use Rattle.outside_desk.specs.RealSink.{real_sink_writer, real_sink_faults};

    ghost said = { λ _. None };

    ghost faults = { λ sink. sink.faults };

    ghost faults_fit = { λ sink. sink.faults_fit };

    fn say(&mut self, _: Global, bytes: &[u8]) -> Result<(), SinkFault>
        ensures ok { OnOk result (Appends (W.contents (real_sink_writer self.old))
            (W.contents (real_sink_writer self.new)) bytes.now) }
        ensures err { OnErr result (AppendsPart (W.contents (real_sink_writer self.old))
            (W.contents (real_sink_writer self.new)) bytes.now) }
        ensures memory { IsErrOf result SinkFault.OutOfMemory → ⊥ }
        ensures faults { CountsEach (real_sink_faults self.old) (real_sink_faults self.new)
            (IsErrOf result SinkFault.Failed) }
    {
        match write_whole(&mut self.writer, bytes) {
            Ok(()) => Ok(()),
            Err(_) => {
                self.faults = self.faults.saturating_add(1);
                Err(SinkFault::Failed)
            }
        }
    }
}
