//! What the formulas say, and rows that show it. The bodies are empty: what is proved are the
//! contracts.

ghost use Rattle.std.specs.Prelude.{◌≡◌, ℕ, ◌+◌, ◌*◌, ◌≤◌, Bool, true, false, length, [], ◌∷◌, ◌==◌, ◌&&◌, not};
ghost use Rattle.clause_formulas.specs.Statements.{any_statement, opposite, both_statements, implication_of};
ghost use Rattle.level_encoding.specs.Composed.{Meets};
ghost use Rattle.level_encoding.specs.Input.{LevelData, IsRight, numbers};
ghost use Rattle.level_encoding.specs.Encoding.{constraints, end};
ghost use Rattle.level_encoding.specs.Laws.{IsSound, IsExact, StartsChosen, HasModel, AllSaidBelow};
ghost use Rattle.level_encoding.specs.Rows.{holds, loop_and_tail, own_arc};

/// An assignment that makes the formulas true chooses no cycle, founds what it chooses, and makes a
/// path formula true exactly where a path leads. Every choice without cycles, in which each node is
/// founded, has such an assignment.
pub fn level_laws()
    ensures sound { (s : LevelData) (v : ℕ → Bool) → IsRight s → StartsChosen s v
        → Meets v (constraints s) → IsSound s v }
    ensures exact { (s : LevelData) (v : ℕ → Bool) → IsRight s → StartsChosen s v
        → Meets v (constraints s) → IsExact s v }
    ensures complete { (s : LevelData) (v : ℕ → Bool) → IsRight s → IsSound s v
        → HasModel s (constraints s) v }
    ensures within { (s : LevelData) → IsRight s → AllSaidBelow (end s) (constraints s) }
    ensures small { (s : LevelData) → end s ≤ s.first + 2 * (numbers s * numbers s) + length
        s.arcs * numbers s }
{}

/// Rows, computed.
pub fn worked_levels()
    // One digit for each number of the loop, none for the tail; two numbers lead to it.
    ensures loop_and_tail { constraints loop_and_tail
        ≡ any_statement (opposite (holds 3) ∷ opposite (holds 6) ∷ [])
        ∷ any_statement (opposite (holds 3) ∷ holds 7 ∷ [])
        ∷ any_statement (opposite (holds 4) ∷ opposite (holds 7) ∷ [])
        ∷ any_statement (opposite (holds 4) ∷ holds 6 ∷ [])
        ∷ any_statement (opposite (holds 1) ∷ holds 3 ∷ [])
        ∷ any_statement (opposite (holds 2) ∷ holds 5 ∷ [])
        ∷ any_statement (opposite (holds 8) ∷ both_statements (holds 3) (holds 9) ∷ [])
        ∷ implication_of (both_statements (holds 3) (holds 9)) (holds 8)
        ∷ any_statement (opposite (holds 9) ∷ both_statements (holds 4) (holds 8) ∷ holds 5 ∷ [])
        ∷ implication_of (both_statements (holds 4) (holds 8)) (holds 9)
        ∷ implication_of (holds 5) (holds 9)
        ∷ [] }
    ensures last { end loop_and_tail ≡ 10 }
    // One of two arcs that lead to each other.
    ensures broken { (v : ℕ → Bool) → Meets v (constraints loop_and_tail) → v 3 ≡ true
        → v 4 ≡ false }
    ensures taken { Meets (λ x. not (x == 4) && not (x == 6)) (constraints loop_and_tail) }
    // No arc leads from a number to itself.
    ensures own { constraints own_arc
        ≡ opposite (holds 1)
        ∷ any_statement (opposite (holds 0) ∷ holds 1 ∷ [])
        ∷ any_statement (opposite (holds 2) ∷ holds 1 ∷ [])
        ∷ implication_of (holds 1) (holds 2)
        ∷ [] }
{}
