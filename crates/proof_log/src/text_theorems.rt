//! What holds of lines and their texts, as theorems.

ghost use Rattle.std.specs.Prelude.{◌≡◌, ◌++◌, ◌∷◌, [], ◌↔◌, ◌^◌, ◌<◌, codes, ℕ, List, Some, None, true, false, not, ◌==◌};
ghost use Rattle.std.specs.List.{list_all};
ghost use Rattle.proof_log.specs.declared.line.Line.{Line};
ghost use Rattle.proof_log.specs.declared.line.Line.TheVariants.{Header, Learnt, Zero, One, Unsat, Spent};
ghost use Rattle.clause_store.specs.declared.Lit.{Lit};
ghost use Rattle.proof_log.specs.Lines.{AllLines};
ghost use Rattle.proof_log.specs.Logs.{IsSound};
ghost use Rattle.proof_log.specs.Certificates.{AreOver};
ghost use Rattle.proof_log.specs.Texts.{Spells, line_of, may_write};
ghost use Rattle.proof_log.specs.Worked.{pos, neg};
ghost use Rattle.proof_log.specs.Readings.{AreWritable, log_text, reading, with_line};

/// A text is read as the line whose text it is, so as no other, and else not at all.
pub fn text_laws()
    ensures { (text : List ℕ) (l : Line) → (line_of text ≡ Some l) ↔ Spells text l }
{}

/// The text of lines that may be written is read as these lines, and after a bad line nothing
/// counts.
pub fn reading_laws()
    ensures reads_back { (lines : List Line) → AreWritable lines
        → reading (log_text lines) ≡ record { lines = lines; rest = []; failed = false } }
    ensures one_line { (bytes text : List ℕ) → (reading bytes).rest ≡ []
        → (reading bytes).failed ≡ false → list_all (λ b. not (b == 10)) text ≡ true
        → reading (bytes ++ (text ++ 10 ∷ []))
        ≡ with_line (record { lines = (reading bytes).lines; rest = text; failed = false })
        (line_of text) }
    ensures stays { (bytes more : List ℕ) → (reading bytes).failed ≡ true
        → reading (bytes ++ more) ≡ reading bytes }
{}

/// The lines of a sound log over variables that have numbers may be written.
pub fn written_laws()
    ensures { (vars : ℕ) (input : List (List Lit)) (bits : List Lit) (lines : List Line)
        → vars < 2 ^ 64 →
        IsSound vars input bits lines → AreOver vars lines
        → AllLines (λ l. may_write l ≡ true) lines }
{}

/// Texts of lines, and texts that spell none, computed.
pub fn worked_lines()
    ensures header { line_of (codes "p 1 2 4 0") ≡ Some (Header 2 4 0) }
    ensures learnt { line_of (codes "l 5 1 -3 0 1 2 0")
        ≡ Some (Learnt 5 (pos 1 ∷ neg 3 ∷ []) (1 ∷ 2 ∷ [])) }
    ensures learnt_empty { line_of (codes "l 5 0 4 0") ≡ Some (Learnt 5 [] (4 ∷ [])) }
    ensures zero_bit { line_of (codes "z 6 0") ≡ Some (Zero 6 0) }
    ensures one_bit { line_of (codes "o 7 1 2 0") ≡ Some (One 7 1 (2 ∷ [])) }
    ensures unsat { line_of (codes "u 3 4 5 0") ≡ Some (Unsat (3 ∷ 4 ∷ 5 ∷ [])) }
    ensures spent { line_of (codes "s") ≡ Some Spent }
    ensures nothing { line_of (codes "") ≡ None }
    ensures cut_off { line_of (codes "l 5 1") ≡ None }
    ensures no_chain { line_of (codes "u 0") ≡ None }
    ensures not_ended { line_of (codes "u 3") ≡ None }
    ensures leading_zero { line_of (codes "z 06 0") ≡ None }
    ensures two_spaces { line_of (codes "z 6  0") ≡ None }
    ensures space_at_end { line_of (codes "s ") ≡ None }
    ensures variables_fall { line_of (codes "l 5 2 1 0 1 0") ≡ None }
    ensures variable_twice { line_of (codes "l 5 1 1 0 1 0") ≡ None }
    ensures other_format { line_of (codes "p 2 2 4 0") ≡ None }
    ensures minus_zero { line_of (codes "z 6 -0") ≡ None }
    ensures more { line_of (codes "e 1") ≡ None }
{}
