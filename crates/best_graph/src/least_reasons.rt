//! The search for a least list of demands for which no graph is valid.

ghost use Rattle.std.specs.Prelude.{◌≡◌, true, All, map, IfOk};
ghost use Rattle.clause_solver.specs.Models.{values_in};
ghost use Rattle.possible_closure.specs.Closures.{closure_of};
ghost use Rattle.graph_decoding.specs.Decoding.{decode, IsStructured};
ghost use Rattle.problem_encoding.specs.Encodings.{AreRules, RulesDecode};
ghost use Rattle.problem_encoding.specs.OfTablePlan.Kept.{has_right_values};
ghost use Rattle.reason_minimum.specs.Least.{IsLeast};
ghost use Rattle.best_graph.specs.LeastLists.{ExplainsLeast, LeastRestsOn};

use crate::least_explanation::LeastExplanation;
use crate::reasons::is_finite;
use crate::searched::rules_to_search;
use crate::{Progress, Rules};
use graph_core::Graph;
use graph_decoding::decode;
use graph_encoding::demand_laws;
use literal_table::LiteralTable;
use plain_data::List;
use possible_closure::Closure;
use problem::Problem;
use ranked_costs::closure_laws;
use reason_minimum::{LeastReasons, least, part_laws};
use std::alloc::{AllocError, Global};

/// Whether some graph is valid, and else a list of demands for which none is, with a graph for each
/// of them that is valid for all others: so none can be left out.
///
/// Each search may learn so many clauses. All are over the rules alone. Externals and records have
/// values for their variants (`has_right_values`). `progress` is told how far it is.
pub fn explain_least<P: Progress>(
    alloc: Global,
    problem: &Problem,
    closure: &Closure,
    budget: u64,
    progress: &mut P,
) -> Result<LeastExplanation, AllocError>
    requires closure { closure.now ≡ closure_of problem.now }
    requires values { has_right_values problem.now ≡ true }
    ensures means { IfOk result (ExplainsLeast problem.now budget) }
    ensures rests { IfOk result (LeastRestsOn problem.now budget) }
{
    let rules = rules_to_search(alloc, problem, closure, progress)?;
    let found = least(alloc, &rules.clauses, budget)?;
    least_explanation_of(alloc, problem, &rules, budget, found)
}

/// What was found, as an explanation.
fn least_explanation_of(
    alloc: Global,
    _problem: &Problem,
    rules: &Rules,
    _budget: u64,
    found: LeastReasons,
) -> Result<LeastExplanation, AllocError>
    requires ruled { AreRules _problem.now rules.now }
    requires decodes { RulesDecode _problem.now }
    requires found { IsLeast rules.now.clauses _budget found }
    ensures means { IfOk result (ExplainsLeast _problem.now _budget) }
    ensures rests { IfOk result (LeastRestsOn _problem.now _budget) }
{
    part_laws();
    closure_laws();
    demand_laws();
    match found {
        LeastReasons::Satisfiable { .. } => Ok(LeastExplanation::Satisfiable),
        LeastReasons::Minimal { demands, models } => {
            let graphs = graphs_of(alloc, &rules.table, models.as_slice())?;
            Ok(LeastExplanation::Least { demands, graphs })
        }
        LeastReasons::Spent { demands, log, .. } => {
            is_finite(&log);
            Ok(LeastExplanation::Undecided { demands, log })
        }
    }
}

/// The graph that a model says.
fn graph_of(alloc: Global, table: &LiteralTable, model: &List<bool>) -> Result<Graph, AllocError>
    requires { IsStructured (values_in model.now) table.now }
    ensures { IfOk result (λ graph. graph ≡ decode (values_in model.now) table.now) }
{
    decode(alloc, table, model.as_slice())
}

/// The graphs that models say, by their places.
fn graphs_of(
    alloc: Global,
    table: &LiteralTable,
    models: &[List<bool>],
) -> Result<List<Graph>, AllocError>
    requires { All (λ model. IsStructured (values_in model) table.now) models.now }
    ensures { IfOk result (λ graphs. graphs
        ≡ map (λ model. decode (values_in model) table.now) models.now) }
{
    let mut graphs = Vec::new(alloc);
    for model in models {
        graphs.push(graph_of(alloc, table, model)?)?;
    }
    Ok(List::from_vec(graphs))
}
