//! What holds of the recipe files of any repository.

ghost use Rattle.std.specs.Prelude.{◌≡◌, ℕ, List, Ok};
ghost use Rattle.outside_desk.specs.Files.{Files};
ghost use Rattle.variant_values.specs.Texts.{IsInByteOrder};
ghost use Rattle.run_input.specs.Sources.{SourcePile, names_of, pile_of};

/// The files are in byte order of the packages' names, each name once.
pub fn source_laws()
    ensures in_order { (files : Files) (repo : List ℕ) (pile : SourcePile)
        → pile_of files repo ≡ Ok pile
        → IsInByteOrder (names_of pile) }
{}
