//! What the clauses of some demands mean. The body is empty: what is proved is the contract.
ghost use Rattle.std.specs.Prelude.{◌↔◌, ℕ, Bool, List};
ghost use Rattle.clause_store.specs.Clauses.{Clauses, Meets};
ghost use Rattle.optimum_search.specs.Finding.{MeetsAll};
ghost use Rattle.explain_failure.specs.Uses.{stands};
ghost use Rattle.reason_minimum.specs.Parts.{clauses_for};

/// An assignment meets the clauses of some demands exactly where it meets what these demands ask
/// for.
pub fn part_laws()
    ensures { (s : Clauses) (ds : List ℕ) (v : ℕ → Bool)
        → MeetsAll v (clauses_for ds s) ↔ Meets (stands ds) v s.entries }
{}
