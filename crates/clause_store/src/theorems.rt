//! What holds of all clauses and all lists of them.
ghost use Rattle.std.specs.Prelude.{◌≡◌, ◌↔◌, ◌⊎◌, ℕ, ◌<◌, Bool, true, List, length, Some, None};
ghost use Rattle.clause_store.specs.declared.Lit.{Lit};
ghost use Rattle.clause_store.specs.declared.list.Entry.{Entry};
ghost use Rattle.clause_store.specs.Lits.{clause_of, clause_true, has, AllBelow, IsClause, HasBothSigns, SameLits};
ghost use Rattle.clause_store.specs.Clauses.{at_id, clauses_of, Meets, AllTrue};

/// The clause of a list has exactly its literals, in order and over the same variables, and is
/// true exactly where the list is; there is none exactly where a variable has both signs; clauses
/// of the same literals are equal.
pub fn clause_laws()
    ensures members { (ls c : List Lit) (l : Lit) → clause_of ls ≡ Some c → has c l ≡ has ls l }
    ensures in_order { (ls c : List Lit) → clause_of ls ≡ Some c → IsClause c }
    ensures in_range { (n : ℕ) (ls c : List Lit) → AllBelow n ls → clause_of ls ≡ Some c
        → AllBelow n c }
    ensures meaning { (v : ℕ → Bool) (ls c : List Lit) → clause_of ls ≡ Some c
        → clause_true v c ≡ clause_true v ls }
    ensures always { (v : ℕ → Bool) (ls : List Lit) → clause_of ls ≡ None
        → clause_true v ls ≡ true }
    ensures both_signs { (ls : List Lit) → (clause_of ls ≡ None) ↔ HasBothSigns ls }
    ensures same { (c d : List Lit) → IsClause c → IsClause d → SameLits c d → c ≡ d }
{}

/// An id names a clause exactly where it is from 1 to the length; an assignment that meets all
/// that may be asked for makes each clause true, and the other way round.
pub fn list_laws()
    ensures ids { (es : List Entry) (id : ℕ) → (at_id es id ≡ None)
        ↔ ((id ≡ 0) ⊎ (length es < id)) }
    ensures all { (v : ℕ → Bool) (es : List Entry) → Meets (λ d. true) v es
        ↔ AllTrue v (clauses_of es) }
{}
