//! Worked rows, by computation.
ghost use Rattle.std.specs.Prelude.{◌≡◌, true, false, [], ◌∷◌, length, Some, None};
ghost use Rattle.clause_circuits.specs.Gates.{Planned, next};
ghost use Rattle.criteria_totals.specs.Digits.{digit_bits_on};
ghost use Rattle.criteria_totals.specs.Spellings.{bits_for};
ghost use Rattle.criteria_totals.specs.Totals.{totals_on};
ghost use Rattle.criteria_totals.specs.Rows.{start, two_terms};

/// Weights 3 and 2 give three bits; sums 64 and 65 give seven each; no term gives none.
#[tactic(auto, unfolding(crate::specs::Digits::digit_bits_on, crate::specs::Digits::left_over, crate::specs::Merges::at_least, clause_circuits::specs::Trees::halved, clause_circuits::specs::Binary::size))]
pub fn worked_digits()
    ensures three_bits { length (digit_bits_on start (two_terms 3 2)).answer ≡ 3 }
    ensures variables { next (digit_bits_on start (two_terms 3 2)).plan ≡ 11 }
    ensures sum_64 { length (digit_bits_on start (two_terms 40 24)).answer ≡ 7 }
    ensures sum_65 { length (digit_bits_on start (two_terms 40 25)).answer ≡ 7 }
    ensures sum_0 { (digit_bits_on start []).answer ≡ [] }
{}

/// Weights 3 and 2 give five bits over five new variables; sums 64, 65 and 0 give 64, 7 and none.
#[tactic(auto, unfolding(crate::specs::Totals::number_on, crate::specs::Unary::unary_bits_on, crate::specs::Merges::at_least, crate::specs::Digits::digit_bits_on, crate::specs::Digits::left_over, clause_circuits::specs::Trees::halved, clause_circuits::specs::Binary::size))]
pub fn worked_totals()
    ensures five_bits { length (totals_on start (two_terms 3 2 ∷ [])).answer ≡ 5 }
    ensures five_variables { next (totals_on start (two_terms 3 2 ∷ [])).plan ≡ 7 }
    ensures sum_64 { length (totals_on start (two_terms 40 24 ∷ [])).answer ≡ 64 }
    ensures sum_65 { length (totals_on start (two_terms 40 25 ∷ [])).answer ≡ 7 }
    ensures sum_0 { (totals_on start ([] ∷ [])).answer ≡ [] }
{}

/// Of weights 3 and 2, 3 is spelled 0 0 1 1 1 and 6 not at all; of 65, 65 is 1000001.
#[tactic(auto, unfolding(crate::specs::Spellings::bits_for, crate::specs::Spellings::spelling_of, clause_circuits::specs::Binary::size))]
pub fn worked_sums()
    ensures three_of_five { bits_for (5 ∷ []) (3 ∷ [])
        ≡ Some (false ∷ false ∷ true ∷ true ∷ true ∷ []) }
    ensures six_of_five { bits_for (5 ∷ []) (6 ∷ []) ≡ None }
    ensures sixty_five { bits_for (65 ∷ []) (65 ∷ [])
        ≡ Some (true ∷ false ∷ false ∷ false ∷ false ∷ false ∷ true ∷ []) }
{}
