//! What the settings ask of packages, as rows of requirements.
ghost use Rattle.std.specs.Prelude.{◌≡◌, IfOk};
ghost use Rattle.std.specs.Option.{option_copied};
ghost use Rattle.problem.specs.Problems.{required_at, row_of, rows_from};
ghost use Rattle.problem.specs.Required.{AreNamedRows, rows_in};

use crate::Problem;
use keyed_lists::{find, insert};
use plain_data::{Duplicate, List, Word};
use recipe_data::RequireRow;
use site_settings::{PackageEntry, RequireEntry};
use std::alloc::{AllocError, Global};

/// The rows of each package of the settings, in byte order of the names, so that they are found by
/// search: what the settings ask is looked up once for each of their requirements. Settings that
/// were read name their packages in that order, and then each name goes to the end.
pub(crate) fn required_of(
    alloc: Global,
    packages: &[PackageEntry],
) -> Result<List<(Word, List<RequireRow>)>, AllocError>
    ensures { IfOk result (AreNamedRows packages.now) }
{
    let mut named = Vec::new(alloc);
    for entry in packages {
        let rows = rows_of(alloc, entry.require.as_slice())?;
        let name = entry.name.duplicate(alloc)?;
        insert(&mut named, (name, rows))?;
    }
    Ok(List::from_vec(named))
}

fn rows_of(alloc: Global, entries: &[RequireEntry]) -> Result<List<RequireRow>, AllocError>
    ensures { IfOk result (λ rows. rows ≡ rows_from 0 entries.now) }
{
    let mut rows = List::new(alloc);
    for place in 0..entries.len() {
        let row = row_of(alloc, place, &entries[place])?;
        rows.push(row)?;
    }
    Ok(rows)
}

fn row_of(alloc: Global, place: usize, entry: &RequireEntry) -> Result<RequireRow, AllocError>
    ensures { IfOk result (λ row. row ≡ row_of place entry.now) }
{
    Ok(RequireRow {
        specs: entry.specs.duplicate(alloc)?,
        one_of: entry.one_of,
        when: entry.when.duplicate(alloc)?,
        number: place as u64,
    })
}

fn rows_in<'a>(named: Option<&'a (Word, List<RequireRow>)>) -> &'a [RequireRow]
    ensures { result.now ≡ rows_in (option_copied named.entry) }
{
    match named {
        Some(named) => named.1.as_slice(),
        None => &[],
    }
}

/// What the settings ask of each node of a package, whatever its origin, each row with its place as
/// its number.
pub fn required_at<'a>(problem: &'a Problem, name: &str) -> &'a [RequireRow]
    ensures { result.now ≡ required_at problem.now name.now }
{
    rows_in(find(problem.required(), name))
}
