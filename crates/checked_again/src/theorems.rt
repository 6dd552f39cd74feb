//! What holds of two runs, one after the other. What is proved is the contract.
ghost use Rattle.std.specs.Prelude.{◌≡◌, ◌⊎◌, ℕ, false, List, Ok, Option, Some};
ghost use Rattle.outside_desk.specs.Files.{Files};
ghost use Rattle.run_output.specs.Certificates.{log_verdict};
ghost use Rattle.run_output.specs.Evidence.{evidence};
ghost use Rattle.run_output.specs.Exits.{Spoken};
ghost use Rattle.run_output.specs.Status.{Status};
ghost use Rattle.run_output.specs.Status.TheVariants as statuses;
ghost use Rattle.run_output.specs.Task.TheVariants as tasks;
ghost use Rattle.run_output.specs.Tasks.{Poses};
ghost use Rattle.run_output.specs.Words.{is_dash_path};
ghost use Rattle.concretizer.specs.Headline.{IsDone, IsUnsatisfiable};
ghost use Rattle.concretizer.specs.Logs.{AreStill, IsLogged};
ghost use Rattle.checked_again.specs.Again.{Asked, IsAcceptedAgain, IsRefutedAgain, StandsApart, concretize_words};

use encoding_laws::encoding_laws;
use graph_rules::rule_laws;
use run_task::{again_laws, task_laws};
use spec_grammar::{reading_laws, writing_laws};
use written_again::{lock_file_laws, put_laws};

/// Where `concretize` ended Done, and put its lock file and its certificate apart from all that it
/// read, `check` with the same words over the files that it left poses that the certificate is
/// right; where it ended Unsatisfiable, `refute` does.
///
/// And a run of words that pose this over the files that a desk tells answers Done where no device
/// failed, unless memory ran out.
///
/// What is asked besides is in `CanBeChecked` and `CanBeRefuted`: that no two nodes of the graph
/// have one hash, and what holds of each problem, graph and log in memory.
pub fn checked_laws()
    ensures check { (asked : Asked) (files after : Files) (out err : Spoken)
        → is_dash_path asked.cert ≡ false → StandsApart asked asked.lock
        → StandsApart asked asked.cert
        → IsDone evidence files (concretize_words asked) (Some after) out err
        → IsAcceptedAgain asked files after }
    ensures refute { (asked : Asked) (files after : Files) (out err : Spoken)
        → is_dash_path asked.cert ≡ false → StandsApart asked asked.cert
        → IsUnsatisfiable evidence files (concretize_words asked) (Some after) out err
        → IsRefutedAgain asked files after }
    ensures answered { (files : Files) (words : List (List ℕ)) (after : Option Files)
        (reads puts says errs : ℕ × ℕ) (out err : Spoken) (answer : Status)
        → Poses log_verdict files words (Ok tasks.Accepted)
        → IsLogged words (Some files, after) reads puts says errs out err answer
        → AreStill reads puts says errs
        → (answer ≡ statuses.Done) ⊎ (answer ≡ statuses.NoMemory) }
{
    reading_laws();
    writing_laws();
    rule_laws();
    again_laws();
    task_laws();
    encoding_laws();
    put_laws();
    lock_file_laws();
}
