//! Files and folders of the machine: the trusted edge, which tells no content.

ghost use Rattle.std.specs.Prelude.{◌≡◌, map, IfOk, OnOk, OnErr};
ghost use Rattle.std.specs.Io.{ReadsAtMost};
ghost use Rattle.std.specs.Io.KnownBytes.{Appends};
ghost use Rattle.std.specs.IoError.{error_kind};
ghost use Rattle.std.specs.String.{string_bytes};
ghost use Rattle.outside_desk.specs.Listing.{AreInOrder};
ghost use Rattle.outside_desk.specs.RealFiles.{fault_of_kind, AppendsPart};

use crate::DeskFault;
use crate::names::Names;
use std::alloc::{AllocError, Global};
use std::fs;
use std::io::{Error, ErrorKind, Read, Seek, SeekFrom, Write};
use std::rt::Files;

/// How many bytes of a folder's names are read at once.
const NAMES: usize = 4096;

/// A file in a folder's place counts as missing too, and a name that is too long for the machine.
pub fn fault_of(error: &Error) -> DeskFault
    ensures { result ≡ fault_of_kind (error_kind error.now) }
{
    match error.kind() {
        ErrorKind::NotFound | ErrorKind::NotADirectory | ErrorKind::InvalidFilename => {
            DeskFault::Missing
        }
        ErrorKind::OutOfMemory => DeskFault::OutOfMemory,
        _ => DeskFault::Failed,
    }
}

/// Opens a file to be read. What is no regular file, as a folder, a pipe or a device, is an error
/// at once, since to open or to read it may wait for ever.
pub fn open_regular<R: Files>(rt: &R, path: &str) -> Result<R::File, Error> {
    if !fs::metadata(rt, path)?.is_file() {
        return Err(Error::from(ErrorKind::InvalidInput));
    }
    fs::open(rt, path)
}

/// Reads a piece of a file into the front of the buffer, and answers how many bytes. No file
/// reaches a place past `i64::MAX`, and no seek goes there.
pub fn read_piece<F: Read + Seek>(file: &mut F, from: u64, out: &mut [u8]) -> Result<usize, Error>
    ensures { ReadsAtMost result out.new }
{
    if from > i64::MAX as u64 {
        return Ok(0);
    }
    file.seek(SeekFrom::Start(from))?;
    read_once(file, out)
}

/// One reading, tried again where it was interrupted.
fn read_once<F: Read>(file: &mut F, out: &mut [u8]) -> Result<usize, Error>
    ensures { ReadsAtMost result out.new }
{
    for _ in 0..u64::MAX {
        match file.read(out) {
            Err(error) if error.kind() == ErrorKind::Interrupted => {}
            answer => return answer,
        }
    }
    Err(Error::from(ErrorKind::Interrupted))
}

/// Writes all of the bytes, or a front of them and then an error. A writing that takes none is an
/// error.
pub fn write_whole<W: Write>(writer: &mut W, bytes: &[u8]) -> Result<(), Error>
    ensures ok { OnOk result (Appends (W.contents writer.old) (W.contents writer.new) bytes.now) }
    ensures err { OnErr result (AppendsPart (W.contents writer.old)
        (W.contents writer.new) bytes.now) }
{
    let mut rest = bytes;
    'writings: for _ in 0..u64::MAX {
        if rest.is_empty() {
            return Ok(());
        }
        match writer.write(rest) {
            Ok(0) => return Err(Error::from(ErrorKind::WriteZero)),
            Ok(count) => rest = &rest[count..],
            Err(error) if error.kind() == ErrorKind::Interrupted => {}
            Err(error) => return Err(error),
        }
    }
    Err(Error::from(ErrorKind::Interrupted))
}

/// The names in a folder that are texts, sorted by their bytes.
pub fn list_folder<R: Files>(alloc: Global, rt: &R, path: &str) -> Result<Vec<String>, Error>
    ensures order { IfOk result (λ names. AreInOrder (map string_bytes names.items)) }
{
    let mut folder_path = String::from_str(alloc, path)?;
    folder_path.push('/')?;
    let mut folder = rt.open_dir(folder_path.as_str())?;
    let mut names = Names::new(alloc);
    let mut buffer = [0u8; NAMES];
    for _ in 0..u64::MAX {
        let count = read_once(&mut folder, &mut buffer)?;
        if count == 0 {
            return Ok(names.into_list()?);
        }
        add_names(&mut names, &buffer[..count])?;
    }
    Err(Error::from(ErrorKind::Interrupted))
}

/// Adds names that each end with a NUL, but not those of the folder itself and of its parent.
fn add_names(names: &mut Names, bytes: &[u8]) -> Result<(), AllocError> {
    for name in bytes.split(|byte| *byte == 0) {
        match std::str::from_utf8(name) {
            Ok("" | "." | "..") | Err(_) => {}
            Ok(name) => names.add(name)?,
        }
    }
    Ok(())
}
