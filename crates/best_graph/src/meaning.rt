//! What the least bits of an encoding mean. The body is empty: what is proved is the contract.
ghost use Rattle.std.specs.Prelude.{◌≡◌, ℕ, Bool, List};
ghost use Rattle.clause_store.specs.declared.Lit.{Lit};
ghost use Rattle.clause_store.specs.Clauses.{Clauses};
ghost use Rattle.proof_log.specs.Certificates.{bits_at, IsBelow};
ghost use Rattle.graph_core.specs.Graphs.{Content};
ghost use Rattle.problem.specs.Nodes.{IsWellFormed};
ghost use Rattle.problem.specs.Problems.{Problem};
ghost use Rattle.graph_rules.specs.Optimal.{IsOptimal, HasNoGraph};
ghost use Rattle.graph_levels.specs.Stages.{Decodes};
ghost use Rattle.graph_encoding.specs.Encodings.{IsValid};
ghost use Rattle.optimum_search.specs.Finding.{MeetsAll};
ghost use Rattle.problem_encoding.specs.Encodings.{Encodes};

/// A model with the least bits decodes to an optimal graph, and where clauses whose models are the
/// valid graphs have none, no graph is valid.
pub fn meaning_laws()
    ensures optimal { (problem : Problem) (s : Clauses) (bits : List Lit)
        (decode : (ℕ → Bool) → Content)
        → Encodes problem s bits decode → (v : ℕ → Bool) → MeetsAll v s
        → ((w : ℕ → Bool) → MeetsAll w s → IsBelow (bits_at w bits) (bits_at v bits) → ⊥)
        → IsWellFormed (decode v) × IsOptimal problem (decode v) }
    ensures nothing { (problem : Problem) (s : Clauses) (decode : (ℕ → Bool) → Content)
        → Decodes s decode (IsValid problem) → ((v : ℕ → Bool) → MeetsAll v s → ⊥)
        → HasNoGraph problem }
{}
