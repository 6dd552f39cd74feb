//! The files that words name: a folder's are all below it.

ghost use Rattle.std.specs.Prelude.{◌≡◌, ◌<◌, OnOk, length};
ghost use Rattle.outside_desk.specs.Files.{StillTells};

use outside_desk::{Desk, DeskFault};
use std::alloc::{AllocError, Global};

/// How many folders stand in one another at most.
pub(crate) const DEEPEST: u32 = 32;

/// A file, or why there is none.
#[derive(Drop)]
pub(crate) enum Found {
    File(String),
    /// A folder without files.
    Empty(String),
    /// A folder that could not be listed, or that stands too deep.
    Closed(String),
}

fn path_in(alloc: Global, folder: &str, name: &str) -> Result<String, AllocError> {
    let between = if folder.ends_with('/') { "" } else { "/" };
    format!(in alloc; "{folder}{between}{name}")
}

/// Adds what stands at a path, with so many levels of folders at most.
pub(crate) fn find<D: Desk>(
    alloc: Global,
    desk: &mut D,
    path: &str,
    levels: u32,
    found: &mut Vec<Found>,
) -> Result<(), AllocError>
    ensures more { OnOk result (length found.old.items < length found.new.items) }
    ensures same { StillTells (D.files desk.old) (D.files desk.new) }
    ensures put_faults { D.put_faults desk.new ≡ D.put_faults desk.old }
{
    let kept = String::from_str(alloc, path)?;
    if levels == 0 {
        return Ok(found.push(Found::Closed(kept))?);
    }
    match desk.list(alloc, path) {
        Ok(names) if names.is_empty() => found.push(Found::Empty(kept))?,
        Ok(names) => {
            for name in names.as_slice() {
                let below = path_in(alloc, path, name.as_str())?;
                find(alloc, desk, below.as_str(), levels - 1, found)?;
            }
        }
        Err(DeskFault::Missing) => found.push(Found::File(kept))?,
        Err(DeskFault::Failed) => found.push(Found::Closed(kept))?,
        Err(DeskFault::OutOfMemory) => return Err(AllocError),
    }
    Ok(())
}
