//! The reading of a repository.

ghost use Rattle.std.specs.Prelude.{◌∷◌, ◌++◌, ℕ, List, map, IfOk, IfSome, OnOk};
ghost use Rattle.std.specs.String.{string_bytes};
ghost use Rattle.outside_desk.specs.Listing.{AreInOrder};
ghost use Rattle.variant_values.specs.Texts.{IsInByteOrder};
ghost use Rattle.run_answers.specs.Stages.{Is};
ghost use Rattle.run_answers.specs.Reads.{OnlyReads};
ghost use Rattle.run_answers.specs.Stops.{Gives};
ghost use Rattle.run_input.specs.Order.{FailsAmong, FailsInside};
ghost use Rattle.run_input.specs.Paths.{FailsAtEntry};
ghost use Rattle.run_input.specs.Sources.{Leaves, names_of, no_files, recipe_file_at, with_entry, with_entries, pile_of};

use crate::paths::{packages_path, recipe_path};
use crate::sources::{FILE_LIMIT, Sources};
use outside_desk::{Desk, DeskFault, ReadFault, read_whole};
use plain_data::Word;
use run_answers::{ReadStop, Refusal};
use spec_grammar::is_name;
use std::alloc::Global;

/// Reads an entry of the folder: it is a recipe where its name is a NAME and its file is there.
#[tactic(auto, unfolding(crate::specs::Sources::recipe_file_at), using(crate::proofs::Ends::at_entry, crate::proofs::Ends::counts))]
fn read_entry<D: Desk>(
    alloc: Global,
    desk: &mut D,
    repo: &str,
    name: &str,
    sources: &mut Sources,
) -> Result<(), ReadStop>
    ensures left { IfSome (D.files desk.new)
        (λ files. Leaves (with_entry sources.old name.now (recipe_file_at files repo.now name.now))
        sources.new result) }
    ensures order { (names : List (List ℕ))
        → IsInByteOrder (names_of sources.old ++ name.now ∷ names)
        → OnOk result (IsInByteOrder (names_of sources.new ++ names)) }
    ensures path { FailsAtEntry repo.now name.now result }
    ensures only_reads { OnlyReads D.files D.faults D.put_faults desk.old desk.new result }
{
    if !is_name(name.as_bytes()) {
        return Ok(());
    }
    let path = recipe_path(alloc, repo, name)?;
    match read_whole(alloc, desk, path.as_str(), FILE_LIMIT) {
        Ok(bytes) => sources.add(alloc, name, bytes),
        Err(ReadFault::TooLong) => sources.refuse(alloc, name),
        Err(ReadFault::Missing) => Ok(()),
        Err(ReadFault::Failed) => Err(ReadStop::Fault(Word::new(alloc, path.as_str())?)),
        Err(ReadFault::OutOfMemory) => Err(ReadStop::NoMemory),
    }
}

/// Reads the entries with these names, one after the other.
fn read_entries<D: Desk>(
    alloc: Global,
    desk: &mut D,
    repo: &str,
    names: &[String],
) -> Result<Sources, ReadStop>
    requires { AreInOrder (map string_bytes names.now) }
    ensures read { IfSome (D.files desk.new)
        (λ files. Gives result
        (Is (with_entries files repo.now no_files (map string_bytes names.now)))) }
    ensures order { IfOk result (λ sources. IsInByteOrder (names_of sources)) }
    ensures path { FailsAmong (D.files desk.new) repo.now (map string_bytes names.now) result }
    ensures only_reads { OnlyReads D.files D.faults D.put_faults desk.old desk.new result }
{
    let mut sources = Sources::new(alloc);
    for name in names {
        read_entry(alloc, desk, repo, name.as_str(), &mut sources)?;
    }
    Ok(sources)
}

/// The recipe files of a repository: `REPO/packages/NAME/package.py`, in byte order of the names.
///
/// An entry of `REPO/packages` whose name is no NAME, or that has no `package.py`, is passed over.
/// A folder that is there and empty, which a real disk may have, gives no recipes.
///
/// # Errors
///
/// `MissingInput` where there is no such folder. Of each recipe in turn: `TooManyRecipes` where it
/// is the 16,385th one, then `RecipeTooLarge` beyond 1 MiB, then `RecipesTooLarge` where all so far
/// have more than 256 MiB. `Fault` where the desk failed, with the path.
#[tactic(auto, unfolding(crate::specs::Sources::pile_of))]
pub fn read_sources<D: Desk>(alloc: Global, desk: &mut D, repo: &str) -> Result<Sources, ReadStop>
    ensures read { IfSome (D.files desk.new) (λ files. Gives result (Is (pile_of files repo.now))) }
    ensures order { IfOk result (λ sources. IsInByteOrder (names_of sources)) }
    ensures path { FailsInside (D.files desk.new) repo.now result }
    ensures only_reads { OnlyReads D.files D.faults D.put_faults desk.old desk.new result }
{
    let folder = packages_path(alloc, repo)?;
    match desk.list(alloc, folder.as_str()) {
        Ok(names) => read_entries(alloc, desk, repo, names.as_slice()),
        Err(DeskFault::Missing) => {
            let folder = Word::new(alloc, folder.as_str())?;
            Err(ReadStop::Refused(Refusal::MissingInput(folder)))
        }
        Err(DeskFault::Failed) => Err(ReadStop::Fault(Word::new(alloc, folder.as_str())?)),
        Err(DeskFault::OutOfMemory) => Err(ReadStop::NoMemory),
    }
}
