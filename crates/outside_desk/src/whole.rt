// A whole file.
ghost use Rattle.std.specs.Prelude.{◌≡◌, ◌≤◌, IfOk, IfSome, IsErrOf, length};
ghost use Rattle.std.specs.FinMap.{get};
ghost use Rattle.outside_desk.specs.Causes.{Counts};
ghost use Rattle.outside_desk.specs.Files.{ReadsWhole, StillTells};

use crate::{Desk, ReadFault};
use std::alloc::Global;

/// How many bytes are asked for at once.
const PIECE: usize = 16384;

/// Reads the file at `path` to its end, piece by piece, unless it has more than `limit` bytes.
///
/// `TooLong` where `limit` + 1 bytes were got, `Missing` or `Failed` where a reading answered so.
/// No file changes. A file that changes between two readings may give a mix of both.
pub fn read_whole<D: Desk>(
    alloc: Global,
    desk: &mut D,
    path: &str,
    limit: u64,
) -> Result<Vec<u8>, ReadFault>
    ensures bytes { IfSome (D.files desk.new) (λ m. ReadsWhole (get m path.now) limit result) }
    ensures limit { IfOk result (λ v. length v.items ≤ limit) }
    ensures same { StillTells (D.files desk.old) (D.files desk.new) }
    ensures cause { Counts (D.faults desk.old) (D.faults desk.new)
        (IsErrOf result ReadFault.Failed) }
    ensures steady { ¬ IsErrOf result ReadFault.Failed → D.faults desk.new ≡ D.faults desk.old }
    ensures put_faults { D.put_faults desk.new ≡ D.put_faults desk.old }
{
    let mut bytes = Vec::new(alloc);
    let mut piece = [0u8; PIECE];
    'pieces: loop {
        let from = bytes.len() as u64;
        let count = desk.read_at(alloc, path, from, &mut piece)?;
        if count == 0 {
            return Ok(bytes);
        }
        if count as u64 > limit - from {
            return Err(ReadFault::TooLong);
        }
        bytes.extend_from_slice(&piece[..count])?;
    }
}
