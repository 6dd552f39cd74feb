//! What certificates and refutations show. The bodies are empty: what is proved are the contracts.
ghost use Rattle.std.specs.Prelude.{◌≡◌, ◌↔◌, ℕ, ◌+◌, Bool, true, false, List, ◌++◌, Option, length};
ghost use Rattle.clause_store.specs.declared.Lit.{Lit};
ghost use Rattle.clause_store.specs.Clauses.{Clauses, clauses_of, Meets};
ghost use Rattle.proof_log.specs.declared.line.Line.{Line};
ghost use Rattle.proof_log.specs.Known.{AllClauses};
ghost use Rattle.proof_log.specs.Certificates.{bits_at, IsBelow, IsCertificate, IsRefutation};
ghost use Rattle.proof_log.specs.Readings.{reading, log_text, AtLineStart, AreWritable};
ghost use Rattle.log_checker.specs.declared.step.Step.TheVariants.{Accepted};
ghost use Rattle.log_checker.specs.Kinds.{IsLogOf, IsSoFar};
ghost use Rattle.log_checker.specs.Steps.{CheckerState, Going, begun, run_lines, finish_on};
ghost use Rattle.certified.specs.Encodings.{MeetsAll, IsEncoding};
ghost use Rattle.certified.specs.Texts.{answer_of, is_settled_by};
ghost use Rattle.certified.specs.declared.text.TextAnswer.TheVariants.{Checked, BadLine};

/// No model has smaller bits than a certificate says, and none meets clauses that are refuted.
pub fn clause_laws()
    ensures least { (s : Clauses) (bits : List Lit) (values : List Bool) (lines : List Line)
        → AllClauses (clauses_of s.entries)
        → IsCertificate s.vars (clauses_of s.entries) bits values lines
        → (v : ℕ → Bool) → MeetsAll v s → IsBelow (bits_at v bits) values → ⊥ }
    ensures refuted { (s : Clauses) (bits : List Lit) (lines : List Line)
        → AllClauses (clauses_of s.entries)
        → IsRefutation s.vars (clauses_of s.entries) bits lines
        → (v : ℕ → Bool) → MeetsAll v s → ⊥ }
{}

/// What the answer to a text means, and when no further byte changes it.
pub fn text_laws()
    ensures settled { (s : CheckerState) (text more : List ℕ) → is_settled_by s text ≡ true
        → answer_of s (text ++ more) ≡ answer_of s text }
    ensures accepted { (s : Clauses) (bits : List Lit) (values : Option (List Bool))
        (text : List ℕ) → AllClauses (clauses_of s.entries)
        → (answer_of (begun s bits values) text ≡ Checked Accepted)
        ↔ (((reading text).failed ≡ false) × AtLineStart text
        × IsLogOf s.vars (clauses_of s.entries) bits values (reading text).lines) }
    ensures bad { (s : Clauses) (bits : List Lit) (values : Option (List Bool)) (text : List ℕ)
        (n : ℕ) → AllClauses (clauses_of s.entries)
        → answer_of (begun s bits values) text ≡ BadLine n
        → (n ≡ length (reading text).lines + 1)
        × IsSoFar s.vars (clauses_of s.entries) bits values (reading text).lines }
    ensures written { (s : CheckerState) (lines : List Line) → AreWritable lines
        → answer_of s (log_text lines) ≡ Checked (finish_on (run_lines (Going s) lines)) }
{}

/// In a sound and complete encoding no right thing has smaller bits than one whose bits are
/// certified, and nothing is right where the clauses are refuted.
pub fn encoding_laws<G>()
    ensures least { (is_right : G → Bool) (bits_of : G → List Bool) (read : (ℕ → Bool) → G)
        (s : Clauses) (bits : List Lit) (g : G) (lines : List Line)
        → IsEncoding is_right bits_of read s bits → AllClauses (clauses_of s.entries)
        → IsCertificate s.vars (clauses_of s.entries) bits (bits_of g) lines
        → (other : G) → is_right other ≡ true → IsBelow (bits_of other) (bits_of g) → ⊥ }
    ensures none { (is_right : G → Bool) (bits_of : G → List Bool) (read : (ℕ → Bool) → G)
        (s : Clauses) (bits : List Lit) (lines : List Line)
        → IsEncoding is_right bits_of read s bits → AllClauses (clauses_of s.entries)
        → IsRefutation s.vars (clauses_of s.entries) bits lines
        → (g : G) → is_right g ≡ true → ⊥ }
{}
