//! Which file of the machine a path leads to.

use crate::DeskFault;
use crate::real_files::fault_of;
use std::alloc::Global;
use std::fs::Metadata;
use std::io::{Error, ErrorKind};
use std::os::unix::fs::MetadataExt;
use std::rt::Files;

/// How many links at the end of a path are followed, as the machine does.
const LINKS: u32 = 40;

/// The folder of a path: what stands before the last `/`, and the present folder where there is
/// none.
pub fn folder_of(path: &str) -> &str {
    match path.rsplit_once('/') {
        Some(("", _)) => "/",
        Some((folder, _)) => folder,
        None => ".",
    }
}

/// The name of a path in its folder.
fn name_of(path: &str) -> &str {
    match path.rsplit_once('/') {
        Some((_, name)) => name,
        None => path,
    }
}

/// The path of the regular file that a put replaces or makes, behind all links at the end of the
/// path. None where what stands there is no regular file, and where the path leads through the open
/// files of a process, as `/dev/stdout` does.
pub fn replaced_path<R: Files>(alloc: Global, rt: &R, path: &str) -> Result<Option<String>, Error> {
    if !is_regular_or_missing(rt, path)? {
        return Ok(None);
    }
    let mut at = String::from_str(alloc, path)?;
    for _ in 0..LINKS {
        if is_of_processes(alloc, rt, folder_of(at.as_str()))? {
            return Ok(None);
        }
        match link_at(alloc, rt, at.as_str())? {
            Some(next) => at = next,
            None => return Ok(Some(at)),
        }
    }
    Err(Error::from(ErrorKind::InvalidInput))
}

/// Whether a regular file stands at the path, or nothing.
fn is_regular_or_missing<R: Files>(rt: &R, path: &str) -> Result<bool, Error> {
    match rt.metadata(path) {
        Ok(found) => Ok(found.is_file()),
        Err(error) if error.kind() == ErrorKind::NotFound => Ok(true),
        Err(error) => Err(error),
    }
}

/// Whether the folder is one of those in which the machine shows processes. Where it has no path
/// that is a text, it is none.
fn is_of_processes<R: Files>(alloc: Global, rt: &R, folder: &str) -> Result<bool, Error> {
    match rt.canonicalize(alloc, folder) {
        Ok(path) => Ok(path.as_str().starts_with("/proc/")),
        Err(error) if error.kind() == ErrorKind::OutOfMemory => Err(error),
        Err(_) => Ok(false),
    }
}

/// Where the link at the path leads, or none where no link stands there.
fn link_at<R: Files>(alloc: Global, rt: &R, path: &str) -> Result<Option<String>, Error> {
    match rt.symlink_metadata(path) {
        Ok(found) if found.is_symlink() => {}
        Ok(_) => return Ok(None),
        Err(error) if error.kind() == ErrorKind::NotFound => return Ok(None),
        Err(error) => return Err(error),
    }
    let link = rt.read_link(alloc, path)?;
    if link.as_str().starts_with('/') {
        return Ok(Some(String::from_str(alloc, link.as_str())?));
    }
    let folder = folder_of(path);
    Ok(Some(format!(in alloc; "{folder}/{}", link.as_str())?))
}

/// One regular file of the machine, whatever path leads to it.
#[derive(Debug, PartialEq, Eq, Drop)]
pub struct FileId {
    device: u64,
    /// The number of the file on its device; of its folder where it is yet to be made.
    node: u64,
    /// The name of a file that is yet to be made.
    name: Option<String>,
}

impl FileId {
    /// Whether this is the file that was found so. One that is yet to be made is none.
    pub fn is_of(&self, found: &Metadata) -> bool {
        self.stands() && self.device == found.dev() && self.node == found.ino()
    }

    /// Whether the file stood when it was looked for.
    pub fn stands(&self) -> bool {
        self.name.is_none()
    }
}

/// Which file a put to the path replaces or makes. `Missing` where there is no such folder, and
/// `Failed` also where what stands there is no regular file.
pub fn file_id<R: Files>(alloc: Global, rt: &R, path: &str) -> Result<FileId, DeskFault> {
    match find_id(alloc, rt, path) {
        Ok(Some(id)) => Ok(id),
        Ok(None) => Err(DeskFault::Failed),
        Err(error) => Err(fault_of(&error)),
    }
}

/// The file that a path leads to, links followed; where there is none, the folder that it would
/// stand in and its name there. None where a put would replace no regular file.
fn find_id<R: Files>(alloc: Global, rt: &R, path: &str) -> Result<Option<FileId>, Error> {
    let Some(path) = replaced_path(alloc, rt, path)? else {
        return Ok(None);
    };
    let path = path.as_str();
    match rt.metadata(path) {
        Ok(found) => Ok(Some(FileId {
            device: found.dev(),
            node: found.ino(),
            name: None,
        })),
        Err(error) if error.kind() == ErrorKind::NotFound => {
            let folder = rt.metadata(folder_of(path))?;
            Ok(Some(FileId {
                device: folder.dev(),
                node: folder.ino(),
                name: Some(String::from_str(alloc, name_of(path))?),
            }))
        }
        Err(error) => Err(error),
    }
}
