//! The search for a graph, or for what stands against one.

ghost use Rattle.std.specs.Prelude.{◌≡◌, ◌<◌, ◌^◌, true, [], IfOk, length};
ghost use Rattle.clause_store.specs.Clauses.{clauses_of};
ghost use Rattle.proof_log.specs.Known.{AllClauses};
ghost use Rattle.optimum_search.specs.Finding.{IsFound};
ghost use Rattle.possible_closure.specs.Closures.{closure_of};
ghost use Rattle.problem_encoding.specs.Encodings.{AreRules, RulesDecode};
ghost use Rattle.problem_encoding.specs.OfTablePlan.Kept.{has_right_values};
ghost use Rattle.best_graph.specs.Explanations.{Explains};
ghost use Rattle.best_graph.specs.Grounds.{RestsOn};

use crate::explanation::Explanation;
use crate::searched::rules_to_search;
use crate::{Progress, Rules};
use explain_failure::{reason_laws, reasons};
use graph_encoding::demand_laws;
use optimum_search::{Found, found_laws, search};
use possible_closure::Closure;
use problem::Problem;
use proof_log::Log;
use std::alloc::{AllocError, Global};

/// Whether some graph is valid, and else the demands that a refutation rests on, with that
/// refutation, where the search may learn so many clauses.
///
/// The search is over the rules alone, so it ends at the first graph. Externals and records have
/// values for their variants (`has_right_values`). `progress` is told how far it is.
pub fn explain<P: Progress>(
    alloc: Global,
    problem: &Problem,
    closure: &Closure,
    budget: u64,
    progress: &mut P,
) -> Result<Explanation, AllocError>
    requires closure { closure.now ≡ closure_of problem.now }
    requires values { has_right_values problem.now ≡ true }
    ensures means { IfOk result (Explains problem.now budget) }
    ensures rests { IfOk result (RestsOn problem.now budget) }
{
    let rules = rules_to_search(alloc, problem, closure, progress)?;
    let found = search(alloc, &rules.clauses, &[], budget)?;
    explanation_of(alloc, problem, &rules, budget, found)
}

/// A log in memory has fewer lines than 2^64.
pub(crate) fn is_finite(log: &Log)
    ensures { length log.now < 2 ^ 64 }
{
    let _count = log.lines().len();
}

/// What was found, as an explanation.
fn explanation_of(
    alloc: Global,
    _problem: &Problem,
    rules: &Rules,
    _budget: u64,
    found: Found,
) -> Result<Explanation, AllocError>
    requires ruled { AreRules _problem.now rules.now }
    requires decodes { RulesDecode _problem.now }
    requires found { IsFound rules.now.clauses [] _budget found }
    requires in_order { AllClauses (clauses_of rules.now.clauses.entries) }
    ensures means { IfOk result (Explains _problem.now _budget) }
    ensures rests { IfOk result (RestsOn _problem.now _budget) }
{
    found_laws();
    reason_laws();
    demand_laws();
    match found {
        Found::Optimal { .. } => Ok(Explanation::Satisfiable),
        Found::Refuted { log } => {
            let demands = reasons(alloc, &rules.clauses, &log)?;
            Ok(Explanation::Unmet { demands, log })
        }
        Found::Spent { log } => {
            is_finite(&log);
            Ok(Explanation::Undecided { log })
        }
    }
}
