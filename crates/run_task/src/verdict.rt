//! The verdict on a lock file.

ghost use Rattle.std.specs.Prelude.{IfOk, IfSome};
ghost use Rattle.graph_core.specs.OfReachability.Paths.{IsAcyclic};
ghost use Rattle.graph_core.specs.Paths.{JoinedIn};
ghost use Rattle.graph_rules.specs.Verdict.{verdict};
ghost use Rattle.run_input.specs.Stages.{Is};
ghost use Rattle.run_input.specs.Reads.{OnlyReads};
ghost use Rattle.run_input.specs.Stops.{Gives, EndsInReadFault};
ghost use Rattle.run_input.specs.Bytes.{FailsAt};
ghost use Rattle.run_task.specs.Verdicts.{unless_broken, weighed, judged, GraphAt, HasCosts, Judges, IsRight, IsValidLock};

use crate::lock::read_named_lock;
use crate::roots::are_roots_of;
use crate::whole::whole;
use cost_vector::vector;
use graph_core::Graph;
use graph_judge::judge;
use graph_rules::{NUMBERS, Verdict, rule_laws};
use lockfile::Lock;
use outside_desk::Desk;
use problem::Problem;
use run_input::{ReadStop, Refusal};
use std::alloc::Global;

/// Refuses a graph that breaks a rule.
fn check_rules(alloc: Global, problem: &Problem, graph: &Graph) -> Result<(), ReadStop>
    ensures read { Gives result (Is (unless_broken (verdict problem.now graph.now))) }
    ensures no_fault { EndsInReadFault result → ⊥ }
{
    match judge(alloc, problem, graph)? {
        Verdict::Valid => Ok(()),
        Verdict::Broken {
            rule,
            node,
            directive,
        } => Err(ReadStop::Refused(Refusal::BrokenRule(rule, node, directive))),
    }
}

/// The rules, and then the cost vector.
#[tactic(auto, unfolding(crate::specs::Verdicts::weighed))]
fn weighed(alloc: Global, problem: &Problem, graph: &Graph) -> Result<[u64; NUMBERS], ReadStop>
    ensures read { Gives result (Is (weighed problem.now graph.now)) }
    ensures no_fault { EndsInReadFault result → ⊥ }
{
    check_rules(alloc, problem, graph)?;
    Ok(vector(alloc, problem, graph)?)
}

/// The roots, and then the graph.
#[tactic(auto, unfolding(crate::specs::Verdicts::judged))]
fn judged(alloc: Global, problem: &Problem, lock: &Lock) -> Result<[u64; NUMBERS], ReadStop>
    ensures read { Gives result (Is (judged problem.now lock.now)) }
    ensures no_fault { EndsInReadFault result → ⊥ }
{
    let (hashes, roots) = (lock.hashes.as_slice(), lock.roots.as_slice());
    if !are_roots_of(alloc, hashes, problem.roots(), roots)? {
        return Err(ReadStop::Refused(Refusal::OtherRoots));
    }
    weighed(alloc, problem, &lock.graph)
}

/// The roots, and then the graph, which is well-formed as every value of its type.
fn judge_lock(alloc: Global, problem: &Problem, lock: &Lock) -> Result<[u64; NUMBERS], ReadStop>
    ensures read { Gives result (Is (judged problem.now lock.now)) }
    ensures right { IfOk result (λ numbers. IsRight problem.now lock.now numbers) }
    ensures no_fault { EndsInReadFault result → ⊥ }
{
    rule_laws();
    whole(&lock.graph);
    judged(alloc, problem, lock)
}

/// What is said of the lock file at a path: the cost vector of its graph.
///
/// # Errors
///
/// The first refusal that is due: `MissingInput`, `LockTooLarge`, `BadLock`, `OtherRoots`,
/// `BrokenRule`. `Fault` where the desk failed.
pub fn read_verdict<D: Desk>(
    alloc: Global,
    desk: &mut D,
    path: &str,
    problem: &Problem,
) -> Result<[u64; NUMBERS], ReadStop>
    ensures read { IfSome (D.files desk.new)
        (λ files. Gives result (Judges files path.now problem.now)) }
    ensures lock { IfOk result (λ numbers. IfSome (D.files desk.new)
        (λ files. IsValidLock files path.now problem.now numbers)) }
    ensures costs { IfOk result (λ numbers. HasCosts problem.now numbers) }
    ensures path { FailsAt path.now result }
    ensures only_reads { OnlyReads D.files D.faults D.put_faults desk.old desk.new result }
{
    let lock = read_named_lock(alloc, desk, path, problem)?;
    let said = judge_lock(alloc, problem, &lock);
    drop(lock);
    said
}

/// The graph of the lock file at a path, of which is said what `read_verdict` says.
///
/// # Errors
///
/// Those of `read_verdict`.
pub fn read_valid_graph<D: Desk>(
    alloc: Global,
    desk: &mut D,
    path: &str,
    problem: &Problem,
) -> Result<Graph, ReadStop>
    ensures read { IfSome (D.files desk.new)
        (λ files. Gives result (GraphAt files path.now problem.now)) }
    ensures acyclic { IfOk result (λ graph. IsAcyclic (JoinedIn graph)) }
    ensures path { FailsAt path.now result }
    ensures only_reads { OnlyReads D.files D.faults D.put_faults desk.old desk.new result }
{
    let lock = read_named_lock(alloc, desk, path, problem)?;
    match judge_lock(alloc, problem, &lock) {
        Ok(_) => Ok(lock.graph),
        Err(stop) => Err(stop),
    }
}
