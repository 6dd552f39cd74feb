//! The search for the best graph.
ghost use Rattle.std.specs.Prelude.{◌≡◌, ◌<◌, ◌≤◌, ◌^◌, true, List, [], IfNone, IfOk, IfSome, length};
ghost use Rattle.clause_store.specs.declared.Lit.{Lit};
ghost use Rattle.clause_store.specs.Clauses.{clauses_of};
ghost use Rattle.proof_log.specs.Certificates.{AreOver};
ghost use Rattle.proof_log.specs.Known.{AllClauses};
ghost use Rattle.proof_log.specs.Lines.{AllLines};
ghost use Rattle.proof_log.specs.Logs.{IsSound};
ghost use Rattle.proof_log.specs.Texts.{IsLine, may_write};
ghost use Rattle.optimum_search.specs.Finding.{IsFound};
ghost use Rattle.possible_closure.specs.Closures.{closure_of};
ghost use Rattle.problem_encoding.specs.Built.{encoding_of, rule_clauses};
ghost use Rattle.problem_encoding.specs.Encodings.{AreRules, IsEncoded, RulesDecode};
ghost use Rattle.problem_encoding.specs.OfTablePlan.Kept.{has_right_values};
ghost use Rattle.problem.specs.Limits.{is_within_limits, most_names};
ghost use Rattle.best_graph.specs.Answers.{HasModel, IsAnswer};

use crate::answer::Answer;
use crate::lines::right_lines;
use crate::meaning::meaning_laws;
use crate::searched::rules_to_search;
use clause_store::{ClauseList, Lit};
use criteria_totals::{Bits, Terms};
use graph_decoding::decode;
use log_trim::trim_found;
use optimum_search::{Found, Number, Progress, Stage, found_laws, search};
use plain_data::List;
use possible_closure::Closure;
use problem::Problem;
use problem_encoding::{Encoded, Rules, number_ends, with_costs};
use proof_log::{Log, written_laws};
use staged_search::search_in_stages;
use std::alloc::{AllocError, Global};

/// The best graph of a problem, where the search may learn so many clauses. Externals and records
/// have values for their variants, the problem is within the limits, and its closure has at most
/// `most_names` names. `progress` is told how far it is. An error is want of memory.
pub fn best_graph<P: Progress>(
    alloc: Global,
    problem: &Problem,
    closure: &Closure,
    budget: u64,
    progress: &mut P,
) -> Result<Answer, AllocError>
    requires closure { closure.now ≡ closure_of problem.now }
    requires few { length (closure_of problem.now) ≤ most_names }
    requires values { has_right_values problem.now ≡ true }
    requires limits { is_within_limits problem.now ≡ true }
    ensures { IfOk result (IsAnswer problem.now budget) }
{
    let rules = rules_to_search(alloc, problem, closure, progress)?;
    let found = search(alloc, &rules.clauses, &[], budget)?;
    let found = trim_found(alloc, &rules.clauses, &[], budget, found)?;
    let start = start_from(alloc, &found)?;
    match settled(problem, &rules, budget, found) {
        Some(answer) => Ok(answer),
        None => least(alloc, problem, rules, start.as_slice(), budget, progress),
    }
}

/// The values that the search for the least begins with: those of the model of the rules, where
/// there is one.
fn start_from(alloc: Global, found: &Found) -> Result<Vec<bool>, AllocError> {
    match found {
        Found::Optimal { model, .. } => Vec::from_slice(alloc, model.as_slice()),
        _ => Ok(Vec::new(alloc)),
    }
}

/// The answer where the rules alone decide it: no graph is valid, or the budget was spent. None
/// where there is a graph.
fn settled(_problem: &Problem, rules: &Rules, _budget: u64, found: Found) -> Option<Answer>
    requires ruled { AreRules _problem.now rules.now }
    requires decodes { RulesDecode _problem.now }
    requires found { IsFound rules.now.clauses [] _budget found }
    requires in_order { AllClauses (clauses_of rules.now.clauses.entries) }
    ensures answer { IfSome result (IsAnswer _problem.now _budget) }
    ensures model { IfNone result (HasModel (rule_clauses _problem.now)) }
{
    meaning_laws();
    found_laws();
    match found {
        Found::Optimal { .. } => None,
        Found::Refuted { log } => {
            is_of_lines(&log);
            is_writable(&rules.clauses, &log);
            Some(Answer::Nothing { log })
        }
        Found::Spent { log } => {
            is_finite(&log);
            is_of_lines(&log);
            is_writable(&rules.clauses, &log);
            Some(Answer::Undecided { log })
        }
    }
}

/// The best graph, where there is one, by a search that begins near the values `start`.
fn least<P: Progress>(
    alloc: Global,
    problem: &Problem,
    rules: Rules,
    start: &[bool],
    budget: u64,
    progress: &mut P,
) -> Result<Answer, AllocError>
    requires ruled { AreRules problem.now rules }
    requires decodes { RulesDecode problem.now }
    requires model { HasModel (rule_clauses problem.now) }
    requires few { length (closure_of problem.now) ≤ most_names }
    requires limits { is_within_limits problem.now ≡ true }
    ensures { IfOk result (IsAnswer problem.now budget) }
{
    let (first_vars, first_clauses) = (rules.clauses.vars(), rules.clauses.len());
    let encoded = with_costs(alloc, problem, rules)?;
    progress.tell(Stage::Searching {
        variables: encoded.clauses.vars(),
        clauses: encoded.clauses.len(),
    });
    let numbers = numbers_of(alloc, &encoded.bits)?;
    let found = search_in_stages(
        alloc,
        &encoded.clauses,
        first_vars,
        first_clauses,
        encoded.bits.lits(),
        numbers.as_slice(),
        start,
        budget,
        progress,
    )?;
    let (clauses, bits) = (&encoded.clauses, encoded.bits.lits());
    let found = trim_found(alloc, clauses, bits, budget, found)?;
    answer_of(alloc, problem, &encoded, budget, found)
}

/// The numbers that the bits spell, each with what it adds up.
fn numbers_of(alloc: Global, bits: &Bits) -> Result<Vec<Number>, AllocError> {
    let ends = number_ends(alloc, bits.tops())?;
    let mut numbers = Vec::new(alloc);
    for (end, terms) in ends.iter().zip(bits.terms()) {
        let parts = parts_of(alloc, terms)?;
        numbers.push(Number { end: *end, parts })?;
    }
    Ok(numbers)
}

/// The literals that a sum counts.
fn parts_of(alloc: Global, terms: &Terms) -> Result<List<Lit>, AllocError> {
    let mut parts = List::new(alloc);
    for (_weight, lit) in terms.as_slice() {
        parts.push(*lit)?;
    }
    Ok(parts)
}

/// The lines of a sound log over the variables of clauses may be written: these have numbers of 64
/// bits.
fn is_writable(clauses: &ClauseList, _log: &Log)
    ensures { (bits : List Lit)
        → IsSound clauses.now.vars (clauses_of clauses.now.entries) bits _log.now
        → AreOver clauses.now.vars _log.now
        → AllLines (λ line. may_write line ≡ true) _log.now }
{
    written_laws();
    let _count = clauses.vars();
}

/// The lines of a log in memory are as their types say.
fn is_of_lines(log: &Log)
    ensures { AllLines IsLine log.now }
{
    right_lines(log.lines());
}

/// A log in memory has fewer lines than 2^64.
fn is_finite(log: &Log)
    ensures { length log.now < 2 ^ 64 }
{
    let _count = log.lines().len();
}

/// What was found over the encoding, as an answer.
fn answer_of(
    alloc: Global,
    _problem: &Problem,
    encoded: &Encoded,
    _budget: u64,
    found: Found,
) -> Result<Answer, AllocError>
    requires encoded { IsEncoded _problem.now encoded.now }
    requires built { encoded.now ≡ encoding_of _problem.now }
    requires found { IsFound encoded.now.clauses encoded.now.bits.lits _budget found }
    requires in_order { AllClauses (clauses_of encoded.now.clauses.entries) }
    requires decodes { RulesDecode _problem.now }
    requires model { HasModel (rule_clauses _problem.now) }
    ensures { IfOk result (IsAnswer _problem.now _budget) }
{
    meaning_laws();
    found_laws();
    match found {
        Found::Optimal { model, log } => {
            let graph = decode(alloc, &encoded.table, model.as_slice())?;
            is_of_lines(&log);
            is_writable(&encoded.clauses, &log);
            Ok(Answer::Best { graph, log })
        }
        Found::Refuted { log: _ } => unreachable!(),
        Found::Spent { log } => {
            is_finite(&log);
            is_of_lines(&log);
            is_writable(&encoded.clauses, &log);
            Ok(Answer::Undecided { log })
        }
    }
}
