//! Puts of files.

ghost use Rattle.std.specs.Prelude.{◌≡◌, ◌⊎◌, true, OnOk};
ghost use Rattle.outside_desk.specs.Causes.{Counts};
ghost use Rattle.outside_desk.specs.Files.{MayHold};
ghost use Rattle.proof_log.specs.Lines.{AllLines};
ghost use Rattle.proof_log.specs.Texts.{may_write};
ghost use Rattle.run_task.specs.Stops.{EndsInPutFault, EndsInOutputFault};
ghost use Rattle.run_output.specs.Answers.{Puts, PutsCert};
ghost use Rattle.run_output.specs.Put.{MayCert};

use outside_desk::{Desk, DeskFault};
use plain_data::Word;
use proof_log::{Log, log_text};
use run_task::{WriteStop, is_dash};
use std::alloc::Global;

/// Puts a file. A fault of the desk is told as one, and as nothing else (`told`).
pub fn put_file<D: Desk>(
    alloc: Global,
    desk: &mut D,
    path: &str,
    text: &[u8],
) -> Result<(), WriteStop>
    ensures left { Puts path.now text.now (D.files desk.old) (D.files desk.new) result }
    ensures held { MayHold (D.files desk.old) (D.files desk.new) path.now text.now }
    ensures no_output { EndsInOutputFault result → ⊥ }
    ensures faults { D.faults desk.new ≡ D.faults desk.old }
    ensures cause { Counts (D.put_faults desk.old) (D.put_faults desk.new) (EndsInPutFault result) }
    ensures steady { OnOk result (D.put_faults desk.new ≡ D.put_faults desk.old) }
    ensures told { ¬ EndsInPutFault result → D.put_faults desk.new ≡ D.put_faults desk.old }
{
    // It is made first: behind a fault of the desk nothing more can fail, so that it is told as
    // one.
    let name = Word::new(alloc, path)?;
    match desk.put(alloc, path, text) {
        Ok(()) => Ok(()),
        Err(DeskFault::Failed) => Err(WriteStop::Put(name)),
        Err(_) => Err(WriteStop::NoMemory),
    }
}

/// Puts the text of a log, unless the path is `-`.
pub fn put_cert<D: Desk>(
    alloc: Global,
    desk: &mut D,
    cert: &str,
    log: &Log,
) -> Result<(), WriteStop>
    requires { AllLines (λ line. may_write line ≡ true) log.now }
    ensures left { PutsCert cert.now log.now (D.files desk.old) (D.files desk.new) result }
    ensures held { (D.files desk.new ≡ D.files desk.old)
        ⊎ MayCert cert.now log.now (D.files desk.old) (D.files desk.new) }
    ensures no_output { EndsInOutputFault result → ⊥ }
    ensures faults { D.faults desk.new ≡ D.faults desk.old }
    ensures cause { Counts (D.put_faults desk.old) (D.put_faults desk.new) (EndsInPutFault result) }
    ensures steady { OnOk result (D.put_faults desk.new ≡ D.put_faults desk.old) }
{
    if is_dash(cert) {
        return Ok(());
    }
    let text = log_text(alloc, log.lines())?;
    put_file(alloc, desk, cert, text.as_slice())
}
