//! Files in parts that have about as many bytes each.

ghost use Rattle.std.specs.Prelude.{◌≡◌, ◌≤◌, length, flat_map, IfOk};

use crate::RecipeFile;
use std::alloc::{AllocError, Global};

/// How many bytes the files have, at most 2^64 - 1.
pub(crate) fn bytes_of(files: &[RecipeFile]) -> u64 {
    let mut bytes: u64 = 0;
    for file in files {
        bytes = bytes.saturating_add(file.bytes.len() as u64);
    }
    bytes
}

/// How many of the first files have so many bytes together; all, where they have fewer.
fn count_with(files: &[RecipeFile], wanted: u64) -> usize
    ensures { result ≤ length files.now }
{
    let mut bytes: u64 = 0;
    for (i, file) in files.iter().enumerate() {
        bytes = bytes.saturating_add(file.bytes.len() as u64);
        if bytes >= wanted {
            return i + 1;
        }
    }
    files.len()
}

/// The files in at most so many parts, of which the last one may have fewer bytes than the others.
pub(crate) fn cut<'a>(
    alloc: Global,
    files: &'a [RecipeFile],
    parts: u64,
) -> Result<Vec<&'a [RecipeFile]>, AllocError>
    ensures { IfOk result (λ parts. flat_map (λ part. part.now) parts.items ≡ files.now) }
{
    let share = bytes_of(files).div_ceil(parts.max(1));
    let mut cut = Vec::new(alloc);
    let mut rest = files;
    for _ in 1..parts {
        let (part, later) = rest.split_at(count_with(rest, share));
        cut.push(part)?;
        rest = later;
    }
    cut.push(rest)?;
    Ok(cut)
}
