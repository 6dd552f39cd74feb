//! The desk of the machine, which is supposed to hold files.

ghost use Rattle.std.specs.Prelude.{◌≡◌, ◌≢◌, ◌≤◌, ◌<◌, ◌^◌, ℕ, [], None, map, IfOk, IsErrOf, length};
ghost use Rattle.std.specs.Io.{ReadsAtMost};
ghost use Rattle.std.specs.String.{string_bytes};
ghost use Rattle.outside_desk.specs.Causes.{CountsEach};
ghost use Rattle.outside_desk.specs.Listing.{AreInOrder};

use crate::real_files::{fault_of, list_folder, open_regular, read_piece};
use crate::real_puts::put_file;
use crate::supposed::DeskCall;
use crate::{Desk, DeskFault, Supposed};
use std::alloc::Global;
use std::io::{Error, ErrorKind, Read, Seek};
use std::rt::Files;

/// Files of the machine, through a runtime. Its counts rise by one at each `Failed`.
///
/// What the machine holds is not known. So this desk is supposed to hold some files, any ones: it
/// tells these as long as each reading and each listing answered as they have it, and ceases to
/// tell where one did not. `new` supposes none, and tells nothing.
///
/// ```text
///   new, supposing ──► both counts 0
///   read_at, list ── Failed: faults + 1
///   put ── Failed: put_faults + 1
/// ```
///
/// `Missing` also where a file stands in a folder's place, and where a name is too long for the
/// machine. Reading what is no regular file is `Failed`. A file is opened once for all its pieces,
/// so one that is replaced in between is not read as a mix. Interrupted readings and writings are
/// tried again. A folder without names is `Missing`, and names that are no texts are passed over.
///
/// A put replaces a regular file as a whole: it writes a file `.spack_concretize-N.tmp` in the same
/// folder, under the first number that is free, syncs it, renames it and syncs the folder. Links at
/// the end of the path are followed first; permissions are kept, and the owner where the machine
/// lets it. A pipe or a device is written in place. A put answers `OutOfMemory` only before
/// anything was written, and `Failed` at each other error.
///
/// `F` is the runtime's type of open files.
#[derive(Drop)]
pub struct RealDesk<'a, R, F> {
    rt: &'a R,
    /// What it is supposed to hold.
    supposed: Supposed,
    /// The file whose piece was read last.
    reading: Option<Reading<F>>,
    faults: u64,
    put_faults: u64,
    ghost faults_fit: { faults < 2 ^ 64 },
    ghost put_faults_fit: { put_faults < 2 ^ 64 },
}

/// A file that is being read.
#[derive(Drop)]
struct Reading<F> {
    path: String,
    file: F,
}

impl<F: Read + Seek> Reading<F> {
    /// Reads a piece from a place on into the front of the buffer, and answers how many bytes.
    fn read(&mut self, from: u64, out: &mut [u8]) -> Result<usize, Error>
        ensures { ReadsAtMost result out.new }
    {
        read_piece(&mut self.file, from, out)
    }
}

/// Opens the file at a path.
fn begin<R: Files>(alloc: Global, rt: &R, path: &str) -> Result<Reading<R::File>, Error> {
    let path = String::from_str(alloc, path)?;
    let file = open_regular(rt, path.as_str())?;
    Ok(Reading { path, file })
}

impl<'a, R: Files> RealDesk<'a, R, R::File> {
    ghost use Rattle.outside_desk.specs.RealDesk.{real_files, real_late, real_faults, real_put_faults};
    ghost use Rattle.outside_desk.specs.Supposed.{files_after, late_after};

    /// A desk of the runtime's files, with no faults, of which nothing is supposed.
    pub fn new(rt: &'a R) -> RealDesk<'a, R, R::File>
        ensures files { real_files result ≡ None }
        ensures faults { real_faults result ≡ 0 }
        ensures put_faults { real_put_faults result ≡ 0 }
    {
        RealDesk::supposing(rt, Supposed::any())
    }

    /// A desk of the runtime's files, with no faults, that is supposed to hold these.
    pub fn supposing(rt: &'a R, supposed: Supposed) -> RealDesk<'a, R, R::File>
        ensures files { real_files result ≡ supposed.files }
        ensures late { real_late result ≡ supposed.late }
        ensures faults { real_faults result ≡ 0 }
        ensures put_faults { real_put_faults result ≡ 0 }
    {
        RealDesk {
            rt,
            supposed,
            reading: None,
            faults: 0,
            put_faults: 0,
        }
    }

    /// Whether the file at the path is the one that is being read.
    fn is_reading(&self, path: &str) -> bool {
        match &self.reading {
            Some(reading) => reading.path.as_str() == path,
            None => false,
        }
    }

    /// Reads a piece of the file at the path. The file is opened where its front is asked for, or
    /// another one is being read.
    fn read_piece(
        &mut self,
        alloc: Global,
        path: &str,
        from: u64,
        out: &mut [u8],
    ) -> Result<usize, Error>
        ensures bound { ReadsAtMost result out.new }
        ensures files { real_files self.new ≡ real_files self.old }
        ensures late { real_late self.new ≡ real_late self.old }
        ensures faults { real_faults self.new ≡ real_faults self.old }
        ensures put_faults { real_put_faults self.new ≡ real_put_faults self.old }
    {
        if from == 0 || !self.is_reading(path) {
            self.reading = Some(begin(alloc, self.rt, path)?);
        }
        match &mut self.reading {
            Some(reading) => reading.read(from, out),
            None => Err(Error::from(ErrorKind::InvalidInput)),
        }
    }

    /// The fault for an error of a reading or a listing, which is counted where it is `Failed`.
    fn fault(&mut self, error: &Error) -> DeskFault
        ensures faults { CountsEach (real_faults self.old) (real_faults self.new)
            (result ≡ DeskFault.Failed) }
        ensures files { real_files self.new ≡ real_files self.old }
        ensures late { real_late self.new ≡ real_late self.old }
        ensures put_faults { real_put_faults self.new ≡ real_put_faults self.old }
    {
        let fault = fault_of(error);
        if fault == DeskFault::Failed {
            self.faults = self.faults.saturating_add(1);
        }
        fault
    }

    /// What it is supposed to hold behind a call.
    fn suppose(&mut self, call: &DeskCall<'_>)
        ensures files { real_files self.new ≡ files_after call.now (real_late self.old) (real_files self.old) }
        ensures late { real_late self.new ≡ late_after call.now (real_late self.old) }
        ensures faults { real_faults self.new ≡ real_faults self.old }
        ensures put_faults { real_put_faults self.new ≡ real_put_faults self.old }
    {
        self.supposed = self.supposed.after(call);
    }
}

impl<'a, R: Files> Desk for RealDesk<'a, R, R::File> {
    ghost use Rattle.outside_desk.specs.RealDesk.{real_files, real_late, real_faults, real_put_faults};
    ghost use Rattle.outside_desk.specs.Supposed.{after_reading, after_listing, after_put, late_behind};

    ghost files = { λ desk. desk.supposed.files };

    ghost faults = { λ desk. desk.faults };

    ghost put_faults = { λ desk. desk.put_faults };

    ghost faults_fit = { λ desk. desk.faults_fit };

    ghost put_faults_fit = { λ desk. desk.put_faults_fit };

    fn read_at(
        &mut self,
        alloc: Global,
        path: &str,
        from: u64,
        out: &mut [u8],
    ) -> Result<usize, DeskFault>
        ensures bound { IfOk result (λ n. n ≤ length out.new) }
        ensures files { real_files self.new ≡ after_reading path.now from out.new result (real_files self.old) }
        ensures late { real_late self.new ≡ real_late self.old }
        ensures faults { CountsEach (real_faults self.old) (real_faults self.new)
            (IsErrOf result DeskFault.Failed) }
        ensures put_faults { real_put_faults self.new ≡ real_put_faults self.old }
    {
        let answer = match self.read_piece(alloc, path, from, out) {
            Ok(count) => Ok(count),
            Err(error) => Err(self.fault(&error)),
        };
        self.suppose(&DeskCall::Read {
            path,
            from,
            out,
            answer: &answer,
        });
        answer
    }

    fn list(&mut self, alloc: Global, path: &str) -> Result<Vec<String>, DeskFault>
        ensures order { IfOk result (λ names. AreInOrder (map string_bytes names.items)) }
        ensures some { IfOk result (λ names. map string_bytes names.items ≢ []) }
        ensures files { real_files self.new ≡ after_listing path.now result (real_files self.old) }
        ensures late { real_late self.new ≡ real_late self.old }
        ensures faults { CountsEach (real_faults self.old) (real_faults self.new)
            (IsErrOf result DeskFault.Failed) }
        ensures put_faults { real_put_faults self.new ≡ real_put_faults self.old }
    {
        let answer = match list_folder(alloc, self.rt, path) {
            Ok(names) if names.is_empty() => Err(DeskFault::Missing),
            Ok(names) => Ok(names),
            Err(error) => Err(self.fault(&error)),
        };
        self.suppose(&DeskCall::Listed {
            path,
            answer: &answer,
        });
        answer
    }

    fn put(&mut self, alloc: Global, path: &str, bytes: &[u8]) -> Result<(), DeskFault>
        ensures never_missing { IsErrOf result DeskFault.Missing → ⊥ }
        ensures files { real_files self.new
            ≡ after_put path.now bytes.now result (real_late self.old) (real_files self.old) }
        ensures late { real_late self.new ≡ late_behind result (real_late self.old) }
        ensures put_faults { CountsEach (real_put_faults self.old) (real_put_faults self.new)
            (IsErrOf result DeskFault.Failed) }
        ensures faults { real_faults self.new ≡ real_faults self.old }
    {
        let answer = match put_file(alloc, self.rt, path, bytes) {
            Err(DeskFault::Failed) => {
                self.put_faults = self.put_faults.saturating_add(1);
                Err(DeskFault::Failed)
            }
            answer => answer,
        };
        self.suppose(&DeskCall::Put {
            path,
            bytes,
            answer: &answer,
        });
        answer
    }
}
