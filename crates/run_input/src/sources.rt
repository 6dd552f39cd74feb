//! Recipe files.

ghost use Rattle.std.specs.Prelude.{◌≡◌, ◌≤◌, ◌<◌, ◌^◌, ◌∷◌, ◌++◌, [], ℕ, List, map, length, OnErr, OnOk};
ghost use Rattle.run_answers.specs.Stops.{EndsInReadFault};
ghost use Rattle.run_input.specs.Sources.{Leaves, bytes_in, no_files, source_of, with_source};

use plain_data::{List, Word};
use recipe_reader::RecipeFile;
use run_answers::{ReadStop, Refusal};
use std::alloc::{AllocError, Global};
use std::marker::Model;

/// The most recipe files: 16,384.
const FILES_LIMIT: usize = 1 << 14;

/// The most bytes of one recipe: 1 MiB.
pub(crate) const FILE_LIMIT: u64 = 1 << 20;

/// The most bytes of all recipes: 256 MiB.
const BYTES_LIMIT: u64 = 1 << 28;

/// Recipe files with the names of their packages, in byte order of the names.
#[derive(Drop)]
pub struct Sources {
    files: List<RecipeFile>,
    total: u64,
    ghost within: { total ≤ 2 ^ 28 },
    ghost counted: { total ≡ bytes_in (map source_of files) },
}

impl Model for Sources {
    ghost use Rattle.std.specs.Prelude.{map};
    ghost use Rattle.run_input.specs.Sources.{SourcePile, source_of};

    ghost Value = { SourcePile };

    ghost view = { λ s. record { files = map source_of s.files; total = s.total } };
}

/// Appends a file. After an error nothing has changed.
fn push_file(
    alloc: Global,
    files: &mut List<RecipeFile>,
    name: &str,
    bytes: Vec<u8>,
) -> Result<(), AllocError>
    ensures ok { OnOk result (map source_of files.new ≡ map source_of files.old
        ++ (name.now, bytes.items) ∷ []) }
    ensures err { OnErr result (files.new ≡ files.old) }
{
    let name = Word::new(alloc, name)?;
    files.push(RecipeFile { name, bytes })?;
    Ok(())
}

impl Sources {
    pub(crate) fn new(alloc: Global) -> Sources
        ensures { result ≡ no_files }
    {
        Sources {
            files: List::new(alloc),
            total: 0,
        }
    }

    /// One file more.
    #[tactic(auto, unfolding(crate::specs::Sources::with_source), using(crate::proofs::Counted::counted))]
    pub(crate) fn add(&mut self, alloc: Global, name: &str, bytes: Vec<u8>) -> Result<(), ReadStop>
        ensures left { Leaves (with_source self.old name.now bytes.items) self.new result }
        ensures no_fault { EndsInReadFault result → ⊥ }
    {
        if self.files.as_slice().len() >= FILES_LIMIT {
            return Err(ReadStop::Refused(Refusal::TooManyRecipes));
        }
        let length = bytes.len() as u64;
        if length > FILE_LIMIT {
            return Err(ReadStop::Refused(Refusal::RecipeTooLarge(Word::new(alloc, name)?)));
        }
        if length > BYTES_LIMIT - self.total {
            return Err(ReadStop::Refused(Refusal::RecipesTooLarge));
        }
        push_file(alloc, &mut self.files, name, bytes)?;
        self.total += length;
        Ok(())
    }

    /// What one more file is answered by that has more than 1 MiB.
    #[tactic(auto, unfolding(crate::specs::Sources::with_source))]
    pub(crate) fn refuse(&self, alloc: Global, name: &str) -> Result<(), ReadStop>
        ensures left { (bytes : List ℕ) → 2 ^ 20 < length bytes
            → Leaves (with_source self.now name.now bytes) self.now result }
        ensures stops { OnOk result ⊥ }
        ensures no_fault { EndsInReadFault result → ⊥ }
    {
        if self.files.as_slice().len() >= FILES_LIMIT {
            return Err(ReadStop::Refused(Refusal::TooManyRecipes));
        }
        Err(ReadStop::Refused(Refusal::RecipeTooLarge(Word::new(alloc, name)?)))
    }

    /// The files, each as a name with bytes.
    pub(crate) fn into_files(self) -> Vec<RecipeFile>
        ensures files { map source_of result.items ≡ self.files }
        ensures short { bytes_in (map source_of result.items) ≤ 2 ^ 28 }
    {
        self.files.into_vec()
    }
}
