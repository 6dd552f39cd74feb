//! The top call.

ghost use Rattle.std.specs.Prelude.{◌≡◌, ◌≤◌, None, Ok, Err, IfSome};
ghost use Rattle.run_answers.specs.Exits.{IsAnsweredBy, IsRefusalStatus};
ghost use Rattle.outside_desk.specs.Causes.{Rose};
ghost use Rattle.outside_desk.specs.Files.{told};
ghost use Rattle.run_output.specs.CertificateVerdicts.{no_verdict};
ghost use Rattle.run_output.specs.Refusal.{Refusal};
ghost use Rattle.run_output.specs.Refusals.{status_of};
ghost use Rattle.run_output.specs.Senses.{meaning};
ghost use Rattle.run_output.specs.Task.{Task};
ghost use Rattle.run_output.specs.Tasks.{Poses};
ghost use Rattle.run_output.specs.Words.{words_of, command_of};
ghost use Rattle.concretizer.specs.Asked.{ChangesOnly};
ghost use Rattle.concretizer.specs.Logs.{IsLogged, KeepsFor};
ghost use Rattle.concretizer.specs.Headline.{IsDone, HasShown, HasOutdone, IsUnsatisfiable, IsUndecided, IsOutdated, IsRefused, IsReadFault, IsWriteFault, IsOutOfMemory, IsOfInput, Keeps, Settles, ReportsWords};

use crate::attempt::{attempt, report};
use outside_desk::{Desk, Sink};
use run_output::{Log, Outcome, Progress, Status, task_laws};
use std::alloc::Global;
use std::thread::Threads;

/// Does what the words ask for, which are those behind the program's name.
///
/// A run reads the settings and all recipes of the repository, `REPO/packages/NAME/package.py`.
/// Then it does the command's own work; `err` gets one line where it stops before its end.
///
/// - `concretize REPO SETTINGS DATABASE LOCK CERT SPEC..` finds the best graph of the specs; the
///   certificate of that is put at CERT, unless that is `-`, and then the lock file at LOCK, and
///   `out` gets the nodes and the cost vector. Where no graph is valid, or the budget of the
///   settings is spent, CERT gets the log of that, and LOCK is not touched.
/// - `judge REPO SETTINGS DATABASE LOCK SPEC..`: where LOCK holds a valid graph of the specs, `out`
///   gets `valid` and the cost vector.
/// - `check REPO SETTINGS DATABASE LOCK CERT SPEC..`: where besides CERT shows that no valid graph
///   costs less, `out` gets `accepted`.
/// - `fresh REPO SETTINGS DATABASE LOCK SPEC..`: where LOCK holds such a graph, `out` gets `fresh`
///   and its cost vector where no valid graph costs less, and else `stale` and the vector of the
///   best one.
/// - `refute REPO SETTINGS DATABASE CERT SPEC..`: where CERT shows that no graph is valid, `out`
///   gets `accepted`.
/// - `explain REPO SETTINGS DATABASE SPEC..`: `out` gets `satisfiable`, or a line for each demand
///   that stands against a graph.
/// - `reasons REPO SETTINGS DATABASE SPEC..`: `out` gets `satisfiable`, or a list of demands for
///   which no graph is valid, and below each of them the nodes of a graph that is valid for all
///   others, or `none` for the empty graph: so none can be left out.
/// - `find REPO SETTINGS DATABASE SPEC..`: `out` gets a line for each installed package that meets
///   the spec, which need not name one.
/// - `plan REPO SETTINGS DATABASE LOCK SPEC..`: where LOCK holds a valid graph of the specs, `out`
///   gets its packages to build in waves, each of which needs only those before it, and a chain of
///   packages that shows that there are no fewer.
/// - `each REPO SETTINGS DATABASE DIR SPEC..` finds the best graph of each spec by itself, all of
///   them beside each other. When all are found, the certificate of the one with number N, from 0,
///   is put at DIR/N.cert, and where there is a graph its lock file at DIR/N.lock; `out` gets for
///   each a line `root N SPEC`, and then its cost vector, or why there is no graph. The answer is
///   that of the first spec without a graph.
/// - `check_each REPO SETTINGS DATABASE DIR SPEC..` does for each spec by itself as `check` does
///   over these two files: where each is the best, `out` gets `accepted`.
/// - `trial N SEED` finds the best graph of N packages that are made in memory; `out` gets how many
///   nodes it has, its cost vector and how many clauses were learnt.
///
/// At the return `kept` holds the log of the answer that `concretize` or `trial` found, of the
/// first spec of `each` without a graph, the refutation that what `explain` said rests on or the
/// log that spent its budget, or that of the search that left `reasons` undecided, whatever it held
/// before; of the other commands, and where reading stopped the run, it holds no line. Where memory
/// ran out or a write failed it holds the one or the other.
///
/// `progress` is told how far the run is. It is a device apart from the others: what follows holds
/// whatever it does.
pub fn run<R: Threads + Sync, D: Desk, O: Sink, E: Sink, P: Progress>(
    rt: &R,
    alloc: Global,
    words: &[String],
    desk: &mut D,
    out: &mut O,
    err: &mut E,
    kept: &mut Log,
    progress: &mut P,
) -> Status
    // Words that are no command are answered so whatever the desk tells, and only words are Usage.
    // No call on the desk or on `out` failed, no file changed and nothing was said but the refusal,
    // or that memory ran out.
    ensures words { command_of (words_of words.now) ≡ None
        → (D.files desk.new ≡ D.files desk.old) × (O.said out.new ≡ O.said out.old)
        × (D.faults desk.new ≡ D.faults desk.old) × (D.put_faults desk.new ≡ D.put_faults desk.old)
        × (O.faults out.new ≡ O.faults out.old)
        × ReportsWords (E.said err.old, E.said err.new) (E.faults err.old, E.faults err.new)
        result }
    ensures usage { result ≡ Status.Usage → command_of (words_of words.now) ≡ None }

    // The answers of a desk that tells its files to the end: what it tells as the run begins
    // (`told`). A desk that is supposed to hold files ceases to where it reads otherwise, and so
    // what is said holds of each files that it may be supposed to hold and that all that was read
    // agrees with.
    ensures done { result ≡ Status.Done
        → IfSome (told (D.files desk.old) (D.files desk.new)) (λ files.
        IsDone meaning files (words_of words.now) (D.files desk.new)
        (O.said out.old, O.said out.new)
        (E.said err.old, E.said err.new)) }
    ensures shown { result ≡ Status.Done
        → IfSome (told (D.files desk.old) (D.files desk.new)) (λ files.
        HasShown files (words_of words.now)) }
    ensures unsatisfiable { result ≡ Status.Unsatisfiable
        → IfSome (told (D.files desk.old) (D.files desk.new)) (λ files.
        IsUnsatisfiable meaning files (words_of words.now) (D.files desk.new)
        (O.said out.old, O.said out.new) (E.said err.old, E.said err.new)) }
    ensures undecided { result ≡ Status.Undecided
        → IfSome (told (D.files desk.old) (D.files desk.new)) (λ files.
        IsUndecided meaning files (words_of words.now) (D.files desk.new)
        (O.said out.old, O.said out.new) (E.said err.old, E.said err.new)) }
    ensures stale { result ≡ Status.Stale
        → IfSome (told (D.files desk.old) (D.files desk.new)) (λ files.
        IsOutdated meaning files (words_of words.now) (D.files desk.new)
        (O.said out.old, O.said out.new) (E.said err.old, E.said err.new)) }
    ensures outdone { result ≡ Status.Stale
        → IfSome (told (D.files desk.old) (D.files desk.new)) (λ files.
        HasOutdone files (words_of words.now)) }
    ensures refused { IsRefusalStatus result
        → IfSome (told (D.files desk.old) (D.files desk.new)) (λ files.
        IsRefused meaning files (words_of words.now) result (D.files desk.new)
        (O.said out.old, O.said out.new) (E.said err.old, E.said err.new)) }

    // Faults come from outside, and are told.
    ensures read_fault { result ≡ Status.ReadFault →
        IsReadFault (words_of words.now) (D.faults desk.old, D.faults desk.new)
        (told (D.files desk.old) (D.files desk.new), D.files desk.new) (O.said out.old, O.said out.new)
        (E.said err.old, E.said err.new) }
    ensures write_fault { result ≡ Status.WriteFault →
        IsWriteFault meaning (words_of words.now)
        (told (D.files desk.old) (D.files desk.new), D.files desk.new)
        (D.put_faults desk.old, D.put_faults desk.new) (O.faults out.old, O.faults out.new)
        (E.faults err.old, E.faults err.new)
        (O.said out.old, O.said out.new) (E.said err.old, E.said err.new) }
    ensures no_memory { result ≡ Status.NoMemory →
        IsOutOfMemory meaning (words_of words.now)
        (told (D.files desk.old) (D.files desk.new), D.files desk.new)
        (O.faults out.old, O.faults out.new) (O.said out.old, O.said out.new)
        (E.said err.old, E.said err.new) }

    // Any other answer is of a run in which no device failed: none that did is asked again, or
    // passed over.
    ensures steady { IsOfInput result → (D.faults desk.new ≡ D.faults desk.old)
        × (D.put_faults desk.new ≡ D.put_faults desk.old)
        × (O.faults out.new ≡ O.faults out.old) × (E.faults err.new ≡ E.faults err.old) }

    // No file changes but those at LOCK and CERT of `concretize`, and at DIR/N.lock and DIR/N.cert
    // of `each` with N below the number of roots, and each is as it was or holds its whole text,
    // whatever comes.
    ensures others { IfSome (told (D.files desk.old) (D.files desk.new))
        (λ files. ChangesOnly (words_of words.now) files (D.files desk.new)) }
    ensures held { IfSome (told (D.files desk.old) (D.files desk.new))
        (λ files. Keeps meaning files (words_of words.now) (D.files desk.new)) }

    // All of this besides as the logs show it: what is shown over clauses of the problem, and when
    // a certificate is refused.
    ensures logged { IsLogged (words_of words.now)
        (told (D.files desk.old) (D.files desk.new), D.files desk.new)
        (D.faults desk.old, D.faults desk.new) (D.put_faults desk.old, D.put_faults desk.new)
        (O.faults out.old, O.faults out.new) (E.faults err.old, E.faults err.new)
        (O.said out.old, O.said out.new) (E.said err.old, E.said err.new) result }

    // The log of the search is kept, and no line where no search answered.
    ensures kept { IfSome (told (D.files desk.old) (D.files desk.new)) (λ files.
        KeepsFor result files (words_of words.now) (D.files desk.new)
        (O.said out.old, O.said out.new) kept.new) }

    // Input that nothing refuses is answered, where no device fails and no certificate is read.
    ensures complete { IfSome (told (D.files desk.old) (D.files desk.new)) (λ files. (task : Task)
        → Poses no_verdict files (words_of words.now) (Ok task)
        → ¬ Rose (D.faults desk.old) (D.faults desk.new)
        → ¬ Rose (D.put_faults desk.old) (D.put_faults desk.new)
        → ¬ Rose (O.faults out.old) (O.faults out.new)
        → ¬ Rose (E.faults err.old) (E.faults err.new) → Settles result) }

    // Input that is refused is answered so, where no device fails: by its certificate, `logged`
    // says.
    ensures due { IfSome (told (D.files desk.old) (D.files desk.new)) (λ files. (refusal : Refusal)
        → Poses no_verdict files (words_of words.now) (Err refusal)
        → ¬ Rose (D.faults desk.old) (D.faults desk.new)
        → ¬ Rose (D.put_faults desk.old) (D.put_faults desk.new)
        → ¬ Rose (O.faults out.old) (O.faults out.new)
        → ¬ Rose (E.faults err.old) (E.faults err.new) → IsAnsweredBy (status_of refusal) result) }

    // No count of faults falls.
    ensures counts { (D.faults desk.old ≤ D.faults desk.new)
        × (D.put_faults desk.old ≤ D.put_faults desk.new)
        × (O.faults out.old ≤ O.faults out.new) × (E.faults err.old ≤ E.faults err.new) }
{
    task_laws();
    match attempt(rt, alloc, words, desk, out, kept, progress) {
        Ok(Outcome::Solved) => Status::Done,
        Ok(Outcome::Unsolved) => Status::Unsatisfiable,
        Ok(Outcome::Undecided) => Status::Undecided,
        Ok(Outcome::Stale) => Status::Stale,
        Err(stop) => report(alloc, err, &stop),
    }
}
