//! What holds of all texts. The bodies are empty: what is proved are the contracts.

ghost use Rattle.std.specs.Prelude.{◌≡◌, ◌≢◌, ◌⊎◌, ℕ, List, [], ◌∷◌, Contains};
ghost use Rattle.std.specs.Str.{IsAscii};
ghost use Rattle.spec_grammar.specs.Reading.{Spells};
ghost use Rattle.spec_grammar.specs.Faults.{IsFault};
ghost use Rattle.spec_grammar.specs.Canonical.{spec_text, AreNamed, AreInOrder, AreValued};
ghost use Rattle.spec_grammar.specs.declared.mode.Mode.{Mode};
ghost use Rattle.spec_grammar.specs.declared.part.Spec.{Spec};
ghost use Rattle.spec_grammar.specs.declared.fault.SpecFault.{SpecFault};

/// A text spells one list of specs at most, and a text that spells specs is refused for want of memory
/// alone. Another text has one fault, besides. A text that spells specs is ASCII.
pub fn reading_laws()
    ensures one_reading { (mode : Mode) (text : List ℕ) (a b : List Spec) → Spells mode text a
        → Spells mode text b → a ≡ b }
    ensures one_fault { (mode : Mode) (text : List ℕ) (a b : SpecFault) → IsFault mode text a
        → IsFault mode text b → a ≢ SpecFault.OutOfMemory → b ≢ SpecFault.OutOfMemory → a ≡ b }
    ensures right { (mode : Mode) (text : List ℕ) (specs : List Spec) (fault : SpecFault)
        → Spells mode text specs → IsFault mode text fault → fault ≡ SpecFault.OutOfMemory }
    ensures ascii { (mode : Mode) (text : List ℕ) (specs : List Spec) → Spells mode text specs
        → IsAscii text }
{}

/// Each text spells specs or has a fault other than want of memory; by `reading_laws` it has one of the
/// two, and one alone. So a text that was refused for want of memory has a reading or another fault too.
/// Nothing is asked of the text: places have no bound here, and an entry above 255 stands in no item.
pub fn reading_is_total()
    ensures total { (mode : Mode) (text : List ℕ) → ((specs : List Spec) × Spells mode text specs)
        ⊎ ((fault : SpecFault) × IsFault mode text fault × (fault ≢ SpecFault.OutOfMemory)) }
{}

/// The canonical text of each spec that was read spells that spec alone, in a text of the same kind. Its variants are in
/// order of their names, each with a value.
pub fn writing_laws()
    ensures read_again { (mode : Mode) (text : List ℕ) (specs : List Spec) (spec : Spec)
        → Spells mode text specs → Contains specs spec → Spells mode (spec_text spec) (spec ∷ []) }
    ensures named { (mode : Mode) (text : List ℕ) (specs : List Spec) (spec : Spec)
        → Spells mode text specs → Contains specs spec → AreNamed mode spec }
    ensures ordered { (mode : Mode) (text : List ℕ) (specs : List Spec) (spec : Spec)
        → Spells mode text specs → Contains specs spec → AreInOrder spec }
    ensures valued { (mode : Mode) (text : List ℕ) (specs : List Spec) (spec : Spec)
        → Spells mode text specs → Contains specs spec → AreValued spec }
{}
