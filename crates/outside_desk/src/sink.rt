// The trait of a sink, which bytes are said to.
ghost use Rattle.std.specs.Prelude.{◌≡◌, ◌<◌, ◌^◌, ℕ, List, Option, OnOk, IsErrOf};
ghost use Rattle.outside_desk.specs.Causes.{Counts};
ghost use Rattle.outside_desk.specs.Files.{and_said, SaysPart};

use crate::SinkFault;
use std::alloc::Global;

/// Bytes are said to it, one piece after the other.
///
/// ```text
///   say ──► the bytes stand at the end ── Failed: faults rises, a front of them may stand there
/// ```
///
/// Calls come in any order, also after a fault. A call that does not answer `Failed` leaves the
/// count. It never falls, is below 2^64, and stays at 2^64 - 1 once it stands there.
pub trait Sink {
    /// What was said, where the sink tells it.
    ghost said: { Self → Option (List ℕ) };

    /// How often a saying failed.
    ghost faults: { Self → ℕ };

    /// Appends the bytes to what was said.
    ///
    /// After `Failed` a front of them was appended. After `OutOfMemory` none was.
    fn say(&mut self, alloc: Global, bytes: &[u8]) -> Result<(), SinkFault>
        ensures ok { OnOk result (said self.new ≡ and_said (said self.old) bytes.now) }
        ensures failed { IsErrOf result SinkFault.Failed
            → SaysPart (said self.old) (said self.new) bytes.now }
        ensures memory { IsErrOf result SinkFault.OutOfMemory → said self.new ≡ said self.old }
        ensures cause { Counts (faults self.old) (faults self.new)
            (IsErrOf result SinkFault.Failed) }
        ensures steady { ¬ IsErrOf result SinkFault.Failed → faults self.new ≡ faults self.old };

    /// The count fits 64 bits.
    ghost faults_fit: { (sink : Self) → faults sink < 2 ^ 64 };
}
