//! What a shorter log shows. The body is empty: what is proved is the contract.
ghost use Rattle.std.specs.Prelude.{◌≡◌, ◌≤◌, ℕ, Bool, List, length};
ghost use Rattle.clause_store.specs.declared.Lit.{Lit};
ghost use Rattle.proof_log.specs.declared.line.Line.{Line};
ghost use Rattle.proof_log.specs.Lines.{learnt_in};
ghost use Rattle.proof_log.specs.Certificates.{AreOver, IsCertificate, IsRefutation, IsSpentLog};
ghost use Rattle.log_trim.specs.Trimmed.{trimmed};

/// A shorter log is a certificate of the same values, a refutation of the same clauses, or of the
/// same spent budget.
pub fn trim_laws()
    ensures certificate { (vars : ℕ) (input : List (List Lit)) (bits : List Lit)
        (values : List Bool)
        (lines : List Line) → IsCertificate vars input bits values lines
        → IsCertificate vars input bits values (trimmed lines) }
    ensures refutation { (vars : ℕ) (input : List (List Lit)) (bits : List Lit) (lines : List Line)
        → IsRefutation vars input bits lines → IsRefutation vars input bits (trimmed lines) }
    ensures spent { (vars : ℕ) (input : List (List Lit)) (bits : List Lit) (budget : ℕ)
        (lines : List Line) → IsSpentLog vars input bits budget lines → trimmed lines ≡ lines }
    ensures over { (vars : ℕ) (lines : List Line) → AreOver vars lines
        → AreOver vars (trimmed lines) }
    ensures fewer { (lines : List Line) → learnt_in (trimmed lines) ≤ learnt_in lines }
    ensures shorter { (lines : List Line) → length (trimmed lines) ≤ length lines }
{}
