//! What holds of each encoding over a right table and right formulas. The bodies are empty: what is
//! proved are the contracts.
ghost use Rattle.std.specs.Prelude.{◌≡◌, ℕ, ◌≤◌, Bool, true, List, Contains};
ghost use Rattle.std.specs.List.{list_all};
ghost use Rattle.clause_formulas.specs.Statements.{eval};
ghost use Rattle.graph_core.specs.Graphs.{Text, Content};
ghost use Rattle.problem.specs.Problems.{Problem};
ghost use Rattle.literal_table.specs.Tables.{Table};
ghost use Rattle.graph_levels.specs.Stages.{Decodes};
ghost use Rattle.graph_encoding.specs.Formulas.{Formulas, IsRightTable, AreRightFormulas, MetBelow};
ghost use Rattle.graph_encoding.specs.Encodings.{encode_on, told_in, asked_demands, IsValid};
ghost use Rattle.graph_encoding.specs.Best.{met_for, SaysAll, OrdersBits, RanksGraphs};
ghost use Rattle.clause_store.specs.declared.Lit.{Lit};
ghost use Rattle.clause_store.specs.Clauses.{Clauses, Meets};
ghost use Rattle.problem.specs.Nodes.{IsWellFormed};
ghost use Rattle.problem.specs.declared.demand.Demand.{Demand};
ghost use Rattle.graph_rules.specs.Valid.{valid_for};

/// Models of the clauses decode to just the valid graphs, for each set of demands.
pub fn encoding_laws()
    ensures { (problem : Problem) (t : Table) (n : ℕ) (f : Formulas) (decode : (ℕ → Bool) → Content)
        (targets : List Text)
        (holds : ℕ → Content → Bool) → IsRightTable problem t n f decode
        → AreRightFormulas problem t n f (told_in t targets) holds
        → Decodes (encode_on problem t n f targets) decode (IsValid problem) }
{}

/// Bits behind the clauses that compare as sums, which are the graphs' numbers, compare as these;
/// and a model with the least bits decodes to a best graph.
pub fn ranking_laws()
    ensures { (problem : Problem) (t : Table) (n : ℕ) (f : Formulas) (decode : (ℕ → Bool) → Content)
        (targets : List Text)
        (holds : ℕ → Content → Bool) (new : Clauses) (bits : List Lit)
        (sums : (ℕ → Bool) → List ℕ)
        (numbers : Content → List ℕ) → IsRightTable problem t n f decode
        → AreRightFormulas problem t n f (told_in t targets) holds
        → OrdersBits (encode_on problem t n f targets) new bits sums
        → ((v : ℕ → Bool) (g : Content) → SaysAll problem t n f targets holds v g → IsWellFormed g
        → sums v ≡ numbers g)
        → RanksGraphs new decode (IsValid problem) bits numbers }
{}

/// Each graph that is valid for some demands has an assignment that meets all clauses of the
/// structure and those of these demands.
pub fn demand_laws()
    ensures { (problem : Problem) (list : Clauses) (decode : (ℕ → Bool) → Content)
        (some : List Demand) (asked : ℕ → Bool)
        (g : Content) → Decodes list decode (IsValid problem) → IsWellFormed g
        → valid_for some problem g ≡ true
        → ((d : Demand) → Contains (asked_demands problem asked) d → Contains some d)
        → (v : ℕ → Bool) × (decode v ≡ g) × Meets asked v list.entries }
{}

/// Each model meets the structure. The variables of the table, and those of the conditions' values,
/// are among those of the clauses.
pub fn model_laws()
    ensures structured { (problem : Problem) (t : Table) (n : ℕ) (f : Formulas)
        (decode : (ℕ → Bool) → Content) (targets : List Text)
        (holds : ℕ → Content → Bool) → IsRightTable problem t n f decode
        → AreRightFormulas problem t n f (told_in t targets) holds
        → (asked v : ℕ → Bool) → Meets asked v (encode_on problem t n f targets).entries
        → list_all (eval v) f.structure ≡ true }
    ensures range { (problem : Problem) (t : Table) (n : ℕ) (f : Formulas)
        (decode : (ℕ → Bool) → Content)
        (targets : List Text)
        (holds : ℕ → Content → Bool) → IsRightTable problem t n f decode
        → AreRightFormulas problem t n f (told_in t targets) holds
        → (n ≤ (encode_on problem t n f targets).vars)
        × MetBelow (encode_on problem t n f targets).vars (met_for problem t n f targets) }
{}
