//! What holds of the encoding of each problem, whoever makes it: what a solver of one's own needs,
//! of the clauses that `encode_dimacs` writes. What is proved is the contract.
ghost use Rattle.std.specs.Prelude.{◌≡◌, ◌≤◌, ℕ, true, length};
ghost use Rattle.clause_store.specs.Kept.{AllInOrder};
ghost use Rattle.possible_closure.specs.Closures.{closure_of};
ghost use Rattle.problem.specs.Assembled.{is_assembled};
ghost use Rattle.problem.specs.Limits.{is_within_limits, most_names};
ghost use Rattle.problem.specs.Problems.{Problem, with_budget};
ghost use Rattle.ranked_costs.specs.OfTablePlan.Kept.{has_right_values};
ghost use Rattle.problem_encoding.specs.Built.{encoding_of, rule_clauses};
ghost use Rattle.problem_encoding.specs.Encodings.{IsEncoded, RulesDecode};

use possible_closure::possible_laws;
use ranked_costs::{closure_laws, costs_laws, order_laws, plan_laws};

/// The models of a problem's clauses decode to just the valid graphs, for each set of demands, and
/// each valid graph has a model; their bits compare as the graphs' cost vectors, and spell them.
///
/// So it is for each problem whose recipes are in order (`is_assembled`: each `Problem` is so) and
/// whose externals and records have values for their variants (`has_right_values`: what is read has
/// them); of the costs, within the limits of what is read. The budget of the settings changes no
/// clause, no bit and no literal. Of each problem, each clause has its variables in rising order,
/// each once, as a checker of logs asks.
pub fn encoding_laws()
    ensures rules { (problem : Problem) → is_assembled problem ≡ true
        → has_right_values problem ≡ true → RulesDecode problem }
    ensures all { (problem : Problem) → is_assembled problem ≡ true
        → has_right_values problem ≡ true → is_within_limits problem ≡ true
        → length (closure_of problem) ≤ most_names → IsEncoded problem (encoding_of problem) }
    ensures budget_rules { (problem : Problem) (budget : ℕ)
        → rule_clauses (with_budget budget problem) ≡ rule_clauses problem }
    ensures budget { (problem : Problem) (budget : ℕ)
        → encoding_of (with_budget budget problem) ≡ encoding_of problem }
    ensures ordered_rules { (problem : Problem) → AllInOrder (rule_clauses problem).entries }
    ensures ordered { (problem : Problem) → AllInOrder (encoding_of problem).clauses.entries }
{
    possible_laws();
    plan_laws();
    closure_laws();
    costs_laws();
    order_laws();
}
