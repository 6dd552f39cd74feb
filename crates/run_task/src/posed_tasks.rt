//! What holds of the task that any words name.

ghost use Rattle.std.specs.Prelude.{◌≡◌, ℕ, List, Result};
ghost use Rattle.outside_desk.specs.Files.{Files};
ghost use Rattle.run_task.specs.CertificateVerdicts.{any_verdict, no_verdict};
ghost use Rattle.run_task.specs.Certificates.{log_verdict};
ghost use Rattle.run_input.specs.Refusal.{Refusal};
ghost use Rattle.run_task.specs.declared.task.Task.{Task};
ghost use Rattle.run_task.specs.Tasks.{Poses};

use crate::{certificate_laws, verdict_laws};
use run_input::input_laws;

/// Words name one task at most over files, or are due one refusal at most. What is posed by the
/// verdicts of logs on certificates is among what any verdicts pose; and what is posed without a
/// certificate is posed by these too.
pub fn task_laws()
    ensures one { (files : Files) (words : List (List ℕ)) (a b : Result Task Refusal)
        → Poses log_verdict files words a
        → Poses log_verdict files words b → a ≡ b }
    ensures any { (files : Files) (words : List (List ℕ)) (posed : Result Task Refusal)
        → Poses log_verdict files words posed → Poses any_verdict files words posed }
    ensures none { (files : Files) (words : List (List ℕ)) (posed : Result Task Refusal)
        → Poses no_verdict files words posed → Poses log_verdict files words posed }
{
    input_laws();
    verdict_laws();
    certificate_laws();
}
