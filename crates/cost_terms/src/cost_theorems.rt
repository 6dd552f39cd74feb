//! What holds of all terms. The bodies are empty: what is proved are the contracts.
ghost use Rattle.std.specs.Prelude.{◌≡◌, ℕ, Bool, List, map};
ghost use Rattle.graph_core.specs.Graphs.{Text, Content};
ghost use Rattle.problem.specs.Problems.{world_of, Problem};
ghost use Rattle.clause_formulas.specs.Statements.{Statement, eval};
ghost use Rattle.recipe_data.specs.OfSpecGrammar.Condition.{Condition};
ghost use Rattle.condition_rules.specs.Holds.{all_hold};
ghost use Rattle.graph_rules.specs.Costs.{vector, stopped};
ghost use Rattle.literal_table.specs.Tables.{Table};
ghost use Rattle.cost_terms.specs.Weighed.{sums_said};
ghost use Rattle.cost_terms.specs.Terms.{Held};
ghost use Rattle.cost_terms.specs.Sums.{cost_terms, HoldSaid, held_by, SpellsCosts};
ghost use Rattle.cost_terms.specs.Weighed.{AllWeighedBelow};
ghost use Rattle.cost_terms.specs.Ranges.{IsTableBelow, AreHeldBelow};

/// Where an assignment says what a graph has, the sums of the weights of true formulas are the
/// graph's cost vector.
pub fn cost_laws()
    ensures vector { (v : ℕ → Bool) (problem : Problem) (table : Table) (held : Held)
        (order : List Text) (graph : Content) → SpellsCosts v problem table held order graph
        → map stopped (sums_said v (cost_terms problem table held order)) ≡ vector problem graph }
    ensures held { (v : ℕ → Bool) (problem : Problem) (condition : Text → Condition → Statement)
        (graph : Content)
        → ((name : Text) (when : Condition)
        → eval v (condition name when) ≡ all_hold (world_of problem) when graph name)
        → HoldSaid v problem (held_by problem condition) graph }
{}

/// The terms have no other variables than the table and the formulas of conditions.
pub fn range_laws()
    ensures below { (n : ℕ) (problem : Problem) (table : Table) (held : Held) → IsTableBelow n table
        → AreHeldBelow n held
        → (order : List Text) → AllWeighedBelow n (cost_terms problem table held order) }
{}
