//! What a search's answer says of all assignments. The body is empty: what is proved is the
//! contract.

ghost use Rattle.std.specs.Prelude.{ℕ, List};
ghost use Rattle.clause_store.specs.declared.Lit.{Lit};
ghost use Rattle.clause_store.specs.Clauses.{Clauses, clauses_of};
ghost use Rattle.proof_log.specs.Known.{AllClauses};
ghost use Rattle.optimum_search.specs.declared.found.Found.{Found};
ghost use Rattle.optimum_search.specs.Finding.{IsFound, IsBest};

/// A model that was found has the least bits of all models, and there is none where the clauses
/// were refuted. A budget that was spent is below 3 to the number of variables, and below the
/// number of lines.
pub fn found_laws()
    ensures { (s : Clauses) (bits : List Lit) (budget : ℕ) (found : Found)
        → AllClauses (clauses_of s.entries) → IsFound s bits budget found
        → IsBest s bits budget found }
{}
