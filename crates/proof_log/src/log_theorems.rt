//! What derivations and logs show. The bodies are empty: what is proved are the contracts.

ghost use Rattle.std.specs.Prelude.{◌≡◌, ◌↔◌, ℕ, ◌^◌, ◌<◌, Bool, true, false, List, [], ◌∷◌, Some, None, length};
ghost use Rattle.clause_store.specs.declared.Lit.{Lit};
ghost use Rattle.clause_store.specs.Lits.{clause_true};
ghost use Rattle.clause_store.specs.Clauses.{AllTrue};
ghost use Rattle.proof_log.specs.declared.line.Line.{Line};
ghost use Rattle.proof_log.specs.Known.{AllClauses};
ghost use Rattle.proof_log.specs.Derivations.{IsDerived};
ghost use Rattle.proof_log.specs.Resolution.{chain_fault, IdsIn, NoPivot, TwoPivots, NotContained};
ghost use Rattle.proof_log.specs.Usefulness.{IsUseful, IsNew};
ghost use Rattle.proof_log.specs.Logs.{AreUseful, AreDistinct};
ghost use Rattle.proof_log.specs.Certificates.{bits_at, IsBelow, IsCertificate, IsRefutation, IsSpentLog};
ghost use Rattle.proof_log.specs.Worked.{pos, neg, five, four, four_log, two, two_bits, two_log};

/// A derived clause holds wherever the known clauses do. The check of a chain finds no fault
/// exactly where the chain derives the stated clause. A useful clause is new.
pub fn derivation_laws()
    ensures holds { (known : List (List Lit)) (chain : List ℕ) (stated : List Lit) (v : ℕ → Bool) →
        AllClauses known → IsDerived known chain stated → AllTrue v known
        → clause_true v stated ≡ true }
    ensures checked { (known : List (List Lit)) (chain : List ℕ) (stated : List Lit) →
        AllClauses known → IdsIn (length known) chain →
        (chain_fault known chain stated ≡ None) ↔ IsDerived known chain stated }
    ensures new { (known : List (List Lit)) (c : List Lit) → IsUseful known c → IsNew known c }
{}

/// No assignment that meets the clauses has smaller bits than a certificate says, and none meets
/// clauses that a log refutes. A budget that was spent is below 3 to the number of variables, and
/// below the number of lines. Useful clauses are distinct.
pub fn log_laws()
    ensures least { (vars : ℕ) (input : List (List Lit)) (bits : List Lit) (values : List Bool)
        (lines : List Line)
        (v : ℕ → Bool) → AllClauses input → IsCertificate vars input bits values lines →
        AllTrue v input → IsBelow (bits_at v bits) values → ⊥ }
    ensures refuted { (vars : ℕ) (input : List (List Lit)) (bits : List Lit) (lines : List Line)
        (v : ℕ → Bool) →
        AllClauses input → IsRefutation vars input bits lines → AllTrue v input → ⊥ }
    ensures spent { (vars : ℕ) (input : List (List Lit)) (bits : List Lit) (budget : ℕ)
        (lines : List Line) →
        IsSpentLog vars input bits budget lines → (budget < 3 ^ vars) × (budget < length lines) }
    ensures distinct { (input : List (List Lit)) (bits : List Lit) (lines : List Line) →
        AreUseful input bits lines → AreDistinct input lines }
{}

/// Chains over `1 2`, `1 -2`, `-1 2`, `-1 -2` and the learnt `1`, a certificate, and a log that
/// spends the budget 0 and has one line too few for the budget 1, computed.
pub fn worked_logs()
    ensures learns { chain_fault five (1 ∷ 2 ∷ []) (pos 1 ∷ []) ≡ None }
    ensures refutes { chain_fault five (5 ∷ 3 ∷ 4 ∷ 5 ∷ []) [] ≡ None }
    ensures no_pivot { chain_fault five (5 ∷ 3 ∷ 2 ∷ 5 ∷ []) [] ≡ Some NoPivot }
    ensures two_pivots { chain_fault five (1 ∷ 4 ∷ []) (pos 1 ∷ []) ≡ Some TwoPivots }
    ensures not_contained { chain_fault five (1 ∷ 2 ∷ []) (neg 1 ∷ []) ≡ Some NotContained }
    ensures no_id { chain_fault five [] (pos 1 ∷ pos 2 ∷ []) ≡ Some NotContained }
    ensures certificate { IsCertificate 2 two two_bits (true ∷ false ∷ []) two_log }
    ensures spent { IsSpentLog 2 four [] 0 four_log }
    ensures one_too_few { IsSpentLog 2 four [] 1 four_log → ⊥ }
{}
