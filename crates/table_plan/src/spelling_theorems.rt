//! What holds of all plans and their tables. The bodies are empty: what is proved are the
//! contracts.
ghost use Rattle.std.specs.Prelude.{ℕ, ◌+◌, Bool};
ghost use Rattle.graph_core.specs.Graphs.{Content};
ghost use Rattle.literal_table.specs.Tables.{IsTable};
ghost use Rattle.literal_table.specs.Spells.{Spells};
ghost use Rattle.table_plan.specs.Offers.{IsOffered, IsPlan};
ghost use Rattle.table_plan.specs.declared.plan.Plan.{Plan};
ghost use Rattle.table_plan.specs.Numbers.{table_from, variables_of};
ghost use Rattle.literal_table.specs.Ranges.{IsTableBelow};
ghost use Rattle.table_plan.specs.Spellings.{spelling, AgreeOutside};

/// Each graph that a plan offers is spelled, and the variables before and after those of the table
/// stay.
pub fn spelling_laws()
    ensures spelled { (n : ℕ) (plan : Plan) (graph : Content) → IsPlan plan → IsOffered plan graph
        → (v : ℕ → Bool) → Spells (spelling n plan graph v) (table_from n plan) graph }
    ensures table { (n : ℕ) (plan : Plan) → IsPlan plan → IsTable (table_from n plan) }
    ensures below { (n : ℕ) (plan : Plan)
        → IsTableBelow (n + variables_of plan) (table_from n plan) }
    ensures others { (n : ℕ) (plan : Plan) (graph : Content) (v : ℕ → Bool)
        → AgreeOutside n (variables_of plan) (spelling n plan graph v) v }
{}
