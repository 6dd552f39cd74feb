//! What a checker accepts, and worked rows. The bodies are empty: what is proved are the contracts.
ghost use Rattle.std.specs.Prelude.{◌≡◌, ◌↔◌, ◌++◌, [], ◌∷◌, ℕ, Bool, true, false, List, Option};
ghost use Rattle.clause_store.specs.declared.Lit.{Lit};
ghost use Rattle.clause_store.specs.Lits.{IsClause};
ghost use Rattle.proof_log.specs.declared.line.Line.{Line};
ghost use Rattle.proof_log.specs.Known.{AllClauses};
ghost use Rattle.proof_log.specs.Lines.{AllLines, OfLearnt};
ghost use Rattle.proof_log.specs.declared.line.Line.TheVariants.{Header, Learnt, Zero, One, Unsat, Spent, End};
ghost use Rattle.proof_log.specs.Worked.{pos, neg};
ghost use Rattle.log_checker.specs.declared.step.Why.TheVariants.{WrongCounts, OutOfOrder, UnknownId, NoPivot, TwoPivots, NotContained, WrongBit, NotNew, Unfinished};
ghost use Rattle.log_checker.specs.declared.step.Step.TheVariants.{Accepted, Refused};
ghost use Rattle.log_checker.specs.Steps.{Progress, Going, starting_state, run_lines, told, finish_on};
ghost use Rattle.log_checker.specs.Kinds.{IsLogOf, IsSoFar};
ghost use Rattle.log_checker.specs.Worked.{refutes, certifies, head, one};

/// Lines are accepted to the end exactly where they are a certificate of the values, or a
/// refutation; none of them is refused exactly where they keep the rules so far; and it does not
/// matter how they are cut into blocks.
pub fn checker_laws()
    ensures accepted { (vars : ℕ) (input : List (List Lit)) (bits : List Lit)
        (values : Option (List Bool)) (lines : List Line)
        → AllClauses input → AllLines (λ l. OfLearnt IsClause l) lines
        → (finish_on (run_lines (Going (starting_state vars input bits values)) lines) ≡ Accepted)
        ↔ IsLogOf vars input bits values lines }
    ensures so_far { (vars : ℕ) (input : List (List Lit)) (bits : List Lit)
        (values : Option (List Bool)) (lines : List Line)
        → AllClauses input → AllLines (λ l. OfLearnt IsClause l) lines
        → (told (run_lines (Going (starting_state vars input bits values)) lines) ≡ Accepted)
        ↔ IsSoFar vars input bits values lines }
    ensures in_blocks { (p : Progress) (lines more : List Line)
        → run_lines p (lines ++ more) ≡ run_lines (run_lines p lines) more }
{}

/// Each answer of a checker, computed.
pub fn worked_steps()
    ensures accepted { refutes (head ∷ one ∷ Unsat (5 ∷ 3 ∷ 4 ∷ 5 ∷ []) ∷ []) ≡ Accepted }
    ensures no_pivot { refutes (head ∷ one ∷ Unsat (5 ∷ 3 ∷ 2 ∷ 5 ∷ []) ∷ [])
        ≡ Refused 3 NoPivot }
    ensures two_pivots { refutes (head ∷ Learnt 5 (pos 1 ∷ []) (1 ∷ 4 ∷ []) ∷ [])
        ≡ Refused 2 TwoPivots }
    ensures not_contained { refutes (head ∷ Learnt 5 (neg 1 ∷ []) (1 ∷ 2 ∷ []) ∷ [])
        ≡ Refused 2 NotContained }
    ensures unknown { refutes (head ∷ Learnt 5 (pos 1 ∷ []) (1 ∷ 9 ∷ []) ∷ [])
        ≡ Refused 2 UnknownId }
    ensures out_of_order { refutes (head ∷ Learnt 7 (pos 1 ∷ []) (1 ∷ 2 ∷ []) ∷ [])
        ≡ Refused 2 OutOfOrder }
    ensures not_new { refutes (head ∷ one ∷ Learnt 6 (pos 1 ∷ []) (1 ∷ 2 ∷ []) ∷ [])
        ≡ Refused 3 NotNew }
    ensures wrong_counts { refutes (Header 2 5 0 ∷ []) ≡ Refused 1 WrongCounts }
    ensures unfinished { refutes (head ∷ one ∷ []) ≡ Refused 3 Unfinished }
    ensures zero_in_refutation { refutes (head ∷ Zero 5 0 ∷ []) ≡ Refused 2 OutOfOrder }
    ensures spent { refutes (head ∷ Spent ∷ []) ≡ Refused 2 OutOfOrder }
    ensures certificate { certifies (true ∷ false ∷ [])
        (Header 2 2 2 ∷ One 3 0 (1 ∷ 2 ∷ []) ∷ Zero 4 1 ∷ End ∷ []) ≡ Accepted }
    ensures wrong_one { certifies (false ∷ false ∷ [])
        (Header 2 2 2 ∷ One 3 0 (1 ∷ 2 ∷ []) ∷ []) ≡ Refused 2 WrongBit }
    ensures wrong_zero { certifies (true ∷ true ∷ [])
        (Header 2 2 2 ∷ One 3 0 (1 ∷ 2 ∷ []) ∷ Zero 4 1 ∷ []) ≡ Refused 3 WrongBit }
    ensures early_end { certifies (true ∷ false ∷ []) (Header 2 2 2 ∷ End ∷ [])
        ≡ Refused 2 OutOfOrder }
{}
