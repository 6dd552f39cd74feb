//! Runs over devices that never fail.

ghost use Rattle.std.specs.Prelude.{◌≡◌, ◌≢◌, None, Ok, Err, Some};
ghost use Rattle.run_answers.specs.Exits.{IsAnsweredBy, IsRefusalStatus};
ghost use Rattle.run_output.specs.CertificateVerdicts.{no_verdict};
ghost use Rattle.run_output.specs.Senses.{meaning};
ghost use Rattle.run_output.specs.Words.{command_of, words_of};
ghost use Rattle.run_output.specs.Task.{Task};
ghost use Rattle.run_output.specs.Tasks.{Poses};
ghost use Rattle.concretizer.specs.Headline.{IsDone, HasShown, HasOutdone, IsUnsatisfiable, IsUndecided, IsOutdated, IsRefused, Settles, ReportsWords};
ghost use Rattle.concretizer.specs.Logs.{IsLogged, KeepsFor};
ghost use Rattle.run_output.specs.Refusals.{status_of};
ghost use Rattle.run_output.specs.Refusal.{Refusal};

use crate::top::run;
use outside_desk::{SteadyDesk, SteadySink};
use run_output::{Log, Status, Untold};
use std::alloc::Global;
use std::thread::Threads;

/// `run` over files and sinks in memory, none of which fails. So no fault is answered, and input
/// that nothing refuses is Done, Unsatisfiable, Undecided, Stale or NoMemory, and input that is
/// refused is answered so. Nobody is told how far it is.
pub fn run_steady<R: Threads + Sync>(
    rt: &R,
    alloc: Global,
    words: &[String],
    desk: &mut SteadyDesk,
    out: &mut SteadySink,
    err: &mut SteadySink,
    kept: &mut Log,
) -> Status
    ensures words { command_of (words_of words.now) ≡ None
        → (desk.new ≡ desk.old) × (Some out.new ≡ Some out.old)
        × ReportsWords (Some err.old, Some err.new) (0, 0) result }
    ensures usage { result ≡ Status.Usage → command_of (words_of words.now) ≡ None }
    ensures done { result ≡ Status.Done
        → IsDone meaning desk.old (words_of words.now) (Some desk.new) (Some out.old, Some out.new)
        (Some err.old, Some err.new) }
    ensures shown { result ≡ Status.Done → HasShown desk.old (words_of words.now) }
    ensures unsatisfiable { result ≡ Status.Unsatisfiable
        → IsUnsatisfiable meaning desk.old (words_of words.now) (Some desk.new)
        (Some out.old, Some out.new)
        (Some err.old, Some err.new) }
    ensures undecided { result ≡ Status.Undecided
        → IsUndecided meaning desk.old (words_of words.now) (Some desk.new)
        (Some out.old, Some out.new)
        (Some err.old, Some err.new) }
    ensures stale { result ≡ Status.Stale
        → IsOutdated meaning desk.old (words_of words.now) (Some desk.new)
        (Some out.old, Some out.new)
        (Some err.old, Some err.new) }
    ensures outdone { result ≡ Status.Stale → HasOutdone desk.old (words_of words.now) }
    ensures refused { IsRefusalStatus result
        → IsRefused meaning desk.old (words_of words.now) result (Some desk.new)
        (Some out.old, Some out.new) (Some err.old, Some err.new) }
    ensures no_read_fault { result ≢ Status.ReadFault }
    ensures no_write_fault { result ≢ Status.WriteFault }
    ensures complete { (task : Task) → Poses no_verdict desk.old (words_of words.now) (Ok task)
        → Settles result }
    ensures due { (refusal : Refusal) → Poses no_verdict desk.old (words_of words.now) (Err refusal)
        → IsAnsweredBy (status_of refusal) result }
    ensures logged { IsLogged (words_of words.now) (Some desk.old, Some desk.new)
        (0, 0) (0, 0) (0, 0)
        (0, 0) (Some out.old, Some out.new) (Some err.old, Some err.new) result }
    ensures kept { KeepsFor result desk.old (words_of words.now) (Some desk.new)
        (Some out.old, Some out.new) kept.new }
{
    run(rt, alloc, words, desk, out, err, kept, &mut Untold)
}
