//! Puts of the machine: a new file is written beside the one that it is to replace, and then takes
//! its place.

ghost use Rattle.std.specs.Prelude.{◌≡◌, IsErrOf, OnErr};
ghost use Rattle.std.specs.IoError.{error_kind};
ghost use Rattle.outside_desk.specs.RealFiles.{put_fault_of_kind};

use crate::DeskFault;
use crate::real_files::write_whole;
use crate::real_paths::{folder_of, replaced_path};
use std::alloc::Global;
use std::fs;
use std::fs::{Metadata, OpenFile, OpenOptions};
use std::io::{Error, ErrorKind, Write};
use std::os::unix::fs::MetadataExt;
use std::rt::Files;

/// A new file, which is to take the place of another one.
#[derive(Drop)]
struct Beside<F> {
    path: String,
    file: F,
}

/// The fault for an error that comes before anything was written.
fn put_fault_of(error: &Error) -> DeskFault
    ensures { result ≡ put_fault_of_kind (error_kind error.now) }
{
    match error.kind() {
        ErrorKind::OutOfMemory => DeskFault::OutOfMemory,
        _ => DeskFault::Failed,
    }
}

/// Makes the file at the path hold the bytes.
///
/// A regular file is replaced, so that it is the old one or the new one at any time: also where the
/// run is killed, the disk is full or the power is cut. Links at the end of the path are followed
/// first, and the file that they lead to is replaced. What is no regular file, as a pipe or a
/// device, is written in place.
pub fn put_file<R: Files>(alloc: Global, rt: &R, path: &str, bytes: &[u8]) -> Result<(), DeskFault>
    ensures { IsErrOf result DeskFault.Missing → ⊥ }
{
    match replaced_path(alloc, rt, path) {
        Ok(Some(path)) => replace(alloc, rt, path.as_str(), bytes),
        Ok(None) => write_in_place(rt, path, bytes),
        Err(error) => Err(put_fault_of(&error)),
    }
}

/// Writes what is no regular file.
fn write_in_place<R: Files>(rt: &R, path: &str, bytes: &[u8]) -> Result<(), DeskFault>
    ensures { IsErrOf result DeskFault.Missing → ⊥ }
{
    match fs::create(rt, path) {
        Ok(mut file) => failed_or(write_whole(&mut file, bytes)),
        Err(error) => Err(put_fault_of(&error)),
    }
}

/// Each error is `Failed`: something may have been written.
fn failed_or(written: Result<(), Error>) -> Result<(), DeskFault>
    ensures { OnErr result (IsErrOf result DeskFault.Failed) }
{
    match written {
        Ok(()) => Ok(()),
        Err(_) => Err(DeskFault::Failed),
    }
}

/// Replaces the file at a path that leads to no link. The new file is removed where a step fails
/// before it stands there.
fn replace<R: Files>(alloc: Global, rt: &R, path: &str, bytes: &[u8]) -> Result<(), DeskFault>
    ensures { IsErrOf result DeskFault.Missing → ⊥ }
{
    let (old, new) = match begin(alloc, rt, path) {
        Ok(begun) => begun,
        Err(error) => return Err(put_fault_of(&error)),
    };
    let Beside {
        path: beside,
        mut file,
    } = new;
    if fill(rt, &mut file, beside.as_str(), &old, bytes).is_err()
        || fs::rename(rt, beside.as_str(), path).is_err()
    {
        let _removed = fs::remove_file(rt, beside.as_str());
        return Err(DeskFault::Failed);
    }
    failed_or(sync_folder(rt, folder_of(path)))
}

/// What the old file is, and a new one beside it.
fn begin<R: Files>(
    alloc: Global,
    rt: &R,
    path: &str,
) -> Result<(Option<Metadata>, Beside<R::File>), Error> {
    let old = old_file(rt, path)?;
    let new = make_beside(alloc, rt, folder_of(path))?;
    Ok((old, new))
}

/// What the file at a path is, or none where there is none. It is an error where it may not be
/// written: what is protected so is not replaced either.
fn old_file<R: Files>(rt: &R, path: &str) -> Result<Option<Metadata>, Error> {
    match OpenOptions::new().write(true).open(rt, path) {
        Ok(file) => Ok(Some(file.metadata()?)),
        Err(error) if error.kind() == ErrorKind::NotFound => Ok(None),
        Err(error) => Err(error),
    }
}

/// Makes a file in a folder under the first name that is free. Names that are taken belong to other
/// runs, or to runs that were killed, and what stands there is not touched.
fn make_beside<R: Files>(alloc: Global, rt: &R, folder: &str) -> Result<Beside<R::File>, Error> {
    for number in 0..u64::MAX {
        let path = format!(in alloc; "{folder}/.spack_concretize-{number}.tmp")?;
        match OpenOptions::new()
            .write(true)
            .create_new(true)
            .open(rt, path.as_str())
        {
            Ok(file) => return Ok(Beside { path, file }),
            Err(error) if error.kind() == ErrorKind::AlreadyExists => {}
            Err(error) => return Err(error),
        }
    }
    Err(Error::from(ErrorKind::AlreadyExists))
}

/// Has a new file hold the bytes, for good: what the machine kept back so far is told here, since
/// nobody hears what it says when a file is closed.
fn fill<R: Files>(
    rt: &R,
    file: &mut R::File,
    path: &str,
    old: &Option<Metadata>,
    bytes: &[u8],
) -> Result<(), Error> {
    if let Some(old) = old {
        keep_access(rt, file, path, old)?;
    }
    write_whole(file, bytes)?;
    file.sync_all()
}

/// Gives a new file the permissions of the old one, and its owner and group where the machine lets
/// it.
fn keep_access<R: Files>(rt: &R, file: &R::File, path: &str, old: &Metadata) -> Result<(), Error> {
    let new = file.metadata()?;
    if new.uid() != old.uid() || new.gid() != old.gid() {
        let _kept = rt.chown(path, Some(old.uid()), Some(old.gid()));
    }
    file.set_permissions(old.permissions())
}

/// Has the names in a folder stand for good. File systems that cannot do that to a folder answer
/// `InvalidInput` or `Unsupported`.
fn sync_folder<R: Files>(rt: &R, folder: &str) -> Result<(), Error> {
    match fs::open(rt, folder)?.sync_all() {
        Err(error)
            if error.kind() == ErrorKind::InvalidInput || error.kind() == ErrorKind::Unsupported =>
            { Ok(()) }
        answer => answer,
    }
}
