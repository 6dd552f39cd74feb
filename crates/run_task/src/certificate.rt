//! The check of a certificate.

ghost use Rattle.std.specs.Prelude.{◌≡◌, ◌<◌, ◌≤◌, true, [], length, Some, None, IfOk, OnOk, IfSome};
ghost use Rattle.std.specs.Option.{option_map};
ghost use Rattle.clause_store.specs.Clauses.{clauses_of};
ghost use Rattle.proof_log.specs.Known.{AllClauses};
ghost use Rattle.log_checker.specs.Steps.{CheckerState, begun};
ghost use Rattle.certified.specs.Texts.{IsAfter};
ghost use Rattle.possible_closure.specs.Closures.{closure_of};
ghost use Rattle.best_graph.specs.OfProblemEncoding.Built.{encoding_of};
ghost use Rattle.best_graph.specs.OfProblemEncoding.Encodings.{AreRules, IsEncoded, RulesDecode};
ghost use Rattle.best_graph.specs.OfProblemEncoding.Kept.{has_right_values};
ghost use Rattle.best_graph.specs.OfProblemEncoding.Limits.{is_within_limits, most_names};
ghost use Rattle.run_answers.specs.Stages.{Is};
ghost use Rattle.run_answers.specs.Reads.{OnlyReads};
ghost use Rattle.run_answers.specs.Stops.{Gives};
ghost use Rattle.run_task.specs.Certificates.{said_at, certified_at, ShowsOf};
ghost use Rattle.run_input.specs.Bytes.{FailsAt};

use crate::pieces::take_all;
use crate::text_verdict::verdict;
use best_graph::{Encoded, Rules, encode, encode_rules, values_of, verdict_laws};
use certified::{TextChecker, text_laws};
use clause_store::{ClauseList, Lit};
use outside_desk::Desk;
use possible_closure::Closure;
use problem::Problem;
use run_answers::{LineFault, ReadStop, Refusal};
use std::alloc::{AllocError, Global};
use std::thread::Threads;

/// How many bytes are asked for at once.
const PIECE: usize = 65_536;

/// Room for a piece.
fn buffer(alloc: Global, size: usize) -> Result<Vec<u8>, AllocError>
    requires { 0 < size }
    ensures { IfOk result (λ bytes. 0 < length bytes.items) }
{
    vec![in alloc; 0u8; size]
}

/// Reads the log at a path, and has it checked.
fn check_text<R: Threads + Sync, D: Desk>(
    rt: &R,
    alloc: Global,
    desk: &mut D,
    path: &str,
    checker: &mut TextChecker,
) -> Result<(), ReadStop>
    ensures read { (s : CheckerState) → IsAfter s [] checker.old
        → IfSome (D.files desk.new) (λ files. Gives result (Is (said_at files path.now s))) }
    ensures path { FailsAt path.now result }
    ensures only_reads { OnlyReads D.files D.faults D.put_faults desk.old desk.new result }
{
    let mut piece = buffer(alloc, PIECE)?;
    match take_all(rt, alloc, desk, path, checker, piece.as_mut_slice()) {
        Ok(true) => verdict(checker),
        Ok(false) => Err(ReadStop::Refused(Refusal::CertificateTooLarge)),
        Err(stop) => Err(stop),
    }
}

/// Reads the log at a path, and has it checked over clauses.
fn check_log<R: Threads + Sync, D: Desk>(
    rt: &R,
    alloc: Global,
    desk: &mut D,
    path: &str,
    clauses: &ClauseList,
    bits: &[Lit],
    values: Option<&[bool]>,
) -> Result<(), ReadStop>
    ensures read { IfSome (D.files desk.new) (λ files. Gives result (Is (said_at files path.now
        (begun clauses.now bits.now (option_map (λ v. v.now) values.entry))))) }
    ensures in_order { OnOk result (AllClauses (clauses_of clauses.now.entries)) }
    ensures path { FailsAt path.now result }
    ensures only_reads { OnlyReads D.files D.faults D.put_faults desk.old desk.new result }
{
    let mut checker = TextChecker::new(alloc, clauses, bits, values)?;
    check_text(rt, alloc, desk, path, &mut checker)
}

/// Reads the certificate at a path, and has it checked as a refutation of the rules of a problem.
fn check_refutation<R: Threads + Sync, D: Desk>(
    rt: &R,
    alloc: Global,
    desk: &mut D,
    path: &str,
    _problem: &Problem,
    rules: &Rules,
) -> Result<(), ReadStop>
    requires ruled { AreRules _problem.now rules.now }
    requires decodes { RulesDecode _problem.now }
    ensures read { IfSome (D.files desk.new) (λ files. Gives result (Is (certified_at files path.now
        _problem.now None))) }
    ensures shown { OnOk result (IfSome (D.files desk.new) (λ files. ShowsOf _problem.now None)) }
    ensures path { FailsAt path.now result }
    ensures only_reads { OnlyReads D.files D.faults D.put_faults desk.old desk.new result }
{
    text_laws();
    verdict_laws();
    check_log(rt, alloc, desk, path, &rules.clauses, &[], None)
}

/// Reads the certificate at a path, and has it checked as one of the costs of a graph, over the
/// encoding of a problem.
fn check_costs<R: Threads + Sync, D: Desk>(
    rt: &R,
    alloc: Global,
    desk: &mut D,
    path: &str,
    _problem: &Problem,
    encoded: &Encoded,
    numbers: &[u64],
) -> Result<(), ReadStop>
    requires encoded { IsEncoded _problem.now encoded.now }
    requires built { encoded.now ≡ encoding_of _problem.now }
    ensures read { IfSome (D.files desk.new) (λ files. Gives result (Is (certified_at files path.now
        _problem.now (Some numbers.now)))) }
    ensures shown { OnOk result (IfSome (D.files desk.new)
        (λ files. ShowsOf _problem.now (Some numbers.now))) }
    ensures path { FailsAt path.now result }
    ensures only_reads { OnlyReads D.files D.faults D.put_faults desk.old desk.new result }
{
    text_laws();
    verdict_laws();
    match values_of(alloc, encoded, numbers)? {
        Some(values) => {
            let (clauses, bits) = (&encoded.clauses, encoded.bits.lits());
            check_log(
                rt,
                alloc,
                desk,
                path,
                clauses,
                bits,
                Some(values.as_slice()),
            )
        }
        None => Err(ReadStop::Refused(Refusal::BadCertificate(1, LineFault::WrongBit))),
    }
}

/// Reads the certificate at a path: whether it shows that a valid graph of the problem with these
/// costs is optimal, or, without costs, that no graph is valid.
///
/// It is read in pieces of 65,536 bytes, and a line that is refused ends the reading.
///
/// # Errors
///
/// The first refusal that is due: `MissingInput`, `BadCertificate` with the first line that is
/// refused, `CertificateTooLarge` beyond 2^63 - 1 bytes. `Fault` where the desk failed.
pub fn read_certificate<R: Threads + Sync, D: Desk>(
    rt: &R,
    alloc: Global,
    desk: &mut D,
    path: &str,
    problem: &Problem,
    closure: &Closure,
    numbers: Option<&[u64]>,
) -> Result<(), ReadStop>
    requires closure { closure.now ≡ closure_of problem.now }
    requires few { length (closure_of problem.now) ≤ most_names }
    requires values { has_right_values problem.now ≡ true }
    requires limits { is_within_limits problem.now ≡ true }
    ensures read { IfSome (D.files desk.new) (λ files. Gives result (Is (certified_at files path.now
        problem.now (option_map (λ n. n.now) numbers.entry)))) }
    ensures shown { OnOk result (IfSome (D.files desk.new)
        (λ files. ShowsOf problem.now
        (option_map (λ n. n.now) numbers.entry))) }
    ensures path { FailsAt path.now result }
    ensures only_reads { OnlyReads D.files D.faults D.put_faults desk.old desk.new result }
{
    match numbers {
        Some(numbers) => {
            let encoded = encode(alloc, problem, closure)?;
            let checked = check_costs(rt, alloc, desk, path, problem, &encoded, numbers);
            drop(encoded);
            checked
        }
        None => {
            let rules = encode_rules(alloc, problem, closure)?;
            let checked = check_refutation(rt, alloc, desk, path, problem, &rules);
            drop(rules);
            checked
        }
    }
}
