// The trait of a desk, which holds files by their paths.
ghost use Rattle.std.specs.Prelude.{◌≡◌, ◌≤◌, ◌<◌, ◌^◌, ℕ, Option, length, map, IfOk, IfSome, OnOk, IsErrOf};
ghost use Rattle.std.specs.FinMap.{get};
ghost use Rattle.std.specs.String.{string_bytes};
ghost use Rattle.outside_desk.specs.Causes.{Counts};
ghost use Rattle.outside_desk.specs.Files.{Files, ReadsAt, StillTells, with_file, MayHold};
ghost use Rattle.outside_desk.specs.Listing.{Lists, AreInOrder};

use crate::DeskFault;
use std::alloc::Global;

/// Files by their paths.
///
/// ```text
///   read_at, list ──► answer, files as before ── Failed: faults rises
///   put           ──► the file holds the bytes ─ Failed: put_faults rises, the old file or the new one
/// ```
///
/// Calls come in any order, also after a fault: no fault closes a desk. A call that does not answer
/// `Failed` leaves both counts. A count never falls, is below 2^64, and stays at 2^64 - 1 once it
/// stands there.
///
/// What a call gave is so in the files that the desk tells behind it. A desk that can't know its
/// files, as that of a machine, is supposed to have some, and ceases to tell them where an answer
/// is not as these have it; one in memory never ceases.
pub trait Desk {
    /// The files, where the desk tells them. No reading and no listing changes what it tells, but
    /// it may cease to.
    ghost files: { Self → Option Files };

    /// How often a reading or a listing failed.
    ghost faults: { Self → ℕ };

    /// How often a put failed.
    ghost put_faults: { Self → ℕ };

    /// Reads bytes of the file at `path` from place `from` on into the front of `out`, and answers
    /// how many.
    ///
    /// The answer is 0 exactly where `out` is empty or `from` is not below the file's length, and
    /// else at most `out.len()`. `Missing` where there is no such file. After an error `out` may
    /// hold anything.
    fn read_at(
        &mut self,
        alloc: Global,
        path: &str,
        from: u64,
        out: &mut [u8],
    ) -> Result<usize, DeskFault>
        ensures bound { IfOk result (λ n. n ≤ length out.new) }
        ensures bytes { IfSome (files self.new)
            (λ m. ReadsAt (get m path.now) from out.new result) }
        ensures same { StillTells (files self.old) (files self.new) }
        ensures cause { Counts (faults self.old) (faults self.new)
            (IsErrOf result DeskFault.Failed) }
        ensures steady { ¬ IsErrOf result DeskFault.Failed → faults self.new ≡ faults self.old }
        ensures put_faults { put_faults self.new ≡ put_faults self.old };

    /// The names in the folder at `path`: the distinct texts that stand between `path/` and the
    /// next `/`, or the path's end, in the paths of the files, sorted by their bytes.
    ///
    /// `Missing` where there is none.
    fn list(&mut self, alloc: Global, path: &str) -> Result<Vec<String>, DeskFault>
        ensures names { IfSome (files self.new) (λ m. Lists m path.now result) }
        ensures order { IfOk result (λ names. AreInOrder (map string_bytes names.items)) }
        ensures same { StillTells (files self.old) (files self.new) }
        ensures cause { Counts (faults self.old) (faults self.new)
            (IsErrOf result DeskFault.Failed) }
        ensures steady { ¬ IsErrOf result DeskFault.Failed → faults self.new ≡ faults self.old }
        ensures put_faults { put_faults self.new ≡ put_faults self.old };

    /// Makes the file at `path` hold `bytes`, and leaves all other files.
    ///
    /// After `Failed` the file is as it was or holds all of the bytes. After `OutOfMemory` nothing
    /// changed. Never `Missing`.
    fn put(&mut self, alloc: Global, path: &str, bytes: &[u8]) -> Result<(), DeskFault>
        ensures ok { OnOk result (files self.new ≡ with_file (files self.old) path.now bytes.now) }
        ensures failed { IsErrOf result DeskFault.Failed
            → MayHold (files self.old) (files self.new) path.now bytes.now }
        ensures memory { IsErrOf result DeskFault.OutOfMemory → files self.new ≡ files self.old }
        ensures never_missing { IsErrOf result DeskFault.Missing → ⊥ }
        ensures cause { Counts (put_faults self.old) (put_faults self.new)
            (IsErrOf result DeskFault.Failed) }
        ensures steady { ¬ IsErrOf result DeskFault.Failed
            → put_faults self.new ≡ put_faults self.old }
        ensures faults { faults self.new ≡ faults self.old };

    /// Each count fits 64 bits.
    ghost faults_fit: { (desk : Self) → faults desk < 2 ^ 64 };

    ghost put_faults_fit: { (desk : Self) → put_faults desk < 2 ^ 64 };
}
