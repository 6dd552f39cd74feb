//! Files that a run would lose: one that it puts where that is another one that it puts, or one
//! that it reads, by another spelling or by a link.

use concretizer::{Command, Work, read_command};
use outside_desk::{Desk, DeskFault, FileId, RealDesk, file_id};
use spec_grammar::{SpecFault, read_specs};
use std::alloc::{AllocError, Global};
use std::fs;
use std::fs::Metadata;
use std::rt::Files;

/// More specs are refused by the run.
const MOST_ROOTS: usize = 64;

/// So is a longer text of them.
const LONGEST_SPEC: usize = 65_536;

/// A file that a run puts, by its name in the usage.
#[derive(Drop)]
struct Put {
    name: String,
    file: FileId,
}

/// The file at a path. None where there is no path, no folder for it, or what stands there is no
/// regular file: that loses nothing.
fn id_of<R: Files>(alloc: Global, rt: &R, path: &str) -> Result<Option<FileId>, AllocError> {
    if path == "-" {
        return Ok(None);
    }
    match file_id(alloc, rt, path) {
        Ok(id) => Ok(Some(id)),
        Err(DeskFault::OutOfMemory) => Err(AllocError),
        Err(_) => Ok(None),
    }
}

fn line_of(alloc: Global, name: &str, other: &str) -> Result<String, AllocError> {
    format!(in alloc; "usage: {name} and {other} are one file\n")
}

/// What is said where two files that `concretize` or `each` puts are one, or one of them is
/// SETTINGS, DATABASE or a recipe of REPO. The text of words that are no command, and of files that
/// are not there, is left to the run.
pub fn one_file<R: Files>(
    alloc: Global,
    rt: &R,
    words: &[String],
) -> Result<Option<String>, AllocError> {
    let command = match read_command(alloc, words) {
        Ok(command) => command,
        Err(_) => return Ok(None),
    };
    let puts = puts_of(alloc, rt, &command)?;
    line_among(alloc, rt, &command, puts.as_slice())
}

/// The files that a command puts, as far as they are told apart.
fn puts_of<R: Files>(alloc: Global, rt: &R, command: &Command<'_>) -> Result<Vec<Put>, AllocError> {
    let mut puts = Vec::new(alloc);
    match command.work {
        Work::Concretize => {
            add_put(alloc, rt, "LOCK", command.lock, &mut puts)?;
            add_put(alloc, rt, "CERT", command.cert, &mut puts)?;
        }
        Work::Each => {
            for root in 0..roots_of(alloc, command.spec.as_str())? {
                add_put_of_root(alloc, rt, command.lock, root, "lock", &mut puts)?;
                add_put_of_root(alloc, rt, command.lock, root, "cert", &mut puts)?;
            }
        }
        _ => {}
    }
    Ok(puts)
}

fn add_put<R: Files>(
    alloc: Global,
    rt: &R,
    name: &str,
    path: &str,
    puts: &mut Vec<Put>,
) -> Result<(), AllocError> {
    if let Some(file) = id_of(alloc, rt, path)? {
        let name = String::from_str(alloc, name)?;
        puts.push(Put { name, file })?;
    }
    Ok(())
}

fn add_put_of_root<R: Files>(
    alloc: Global,
    rt: &R,
    dir: &str,
    root: usize,
    kind: &str,
    puts: &mut Vec<Put>,
) -> Result<(), AllocError> {
    let name = format!(in alloc; "DIR/{root}.{kind}")?;
    let path = format!(in alloc; "{dir}/{root}.{kind}")?;
    add_put(alloc, rt, name.as_str(), path.as_str(), puts)
}

/// How many specs a text spells; 0 where the run refuses it.
fn roots_of(alloc: Global, text: &str) -> Result<usize, AllocError> {
    if text.len() > LONGEST_SPEC {
        return Ok(0);
    }
    match read_specs(alloc, text) {
        Ok(specs) if specs.as_slice().len() > MOST_ROOTS => Ok(0),
        Ok(specs) => Ok(specs.as_slice().len()),
        Err(SpecFault::OutOfMemory) => Err(AllocError),
        Err(_) => Ok(0),
    }
}

/// The line for the first file that is put and is another one that is put, or one that is read.
fn line_among<R: Files>(
    alloc: Global,
    rt: &R,
    command: &Command<'_>,
    puts: &[Put],
) -> Result<Option<String>, AllocError> {
    if let Some((name, other)) = first_pair(puts) {
        return Ok(Some(line_of(alloc, name, other)?));
    }
    for (path, other) in [
        (command.settings, "SETTINGS"),
        (command.database, "DATABASE"),
    ] {
        if let Some(name) = put_as(puts, &id_of(alloc, rt, path)?) {
            return Ok(Some(line_of(alloc, name, other)?));
        }
    }
    line_of_recipes(alloc, rt, command.repo, puts)
}

/// The names of the first two files that are put and are one.
fn first_pair(puts: &[Put]) -> Option<(&str, &str)> {
    for (i, put) in puts.iter().enumerate() {
        for other in &puts[i + 1..] {
            if put.file == other.file {
                return Some((put.name.as_str(), other.name.as_str()));
            }
        }
    }
    None
}

/// The name of the first file that is put and is this one.
fn put_as<'a>(puts: &'a [Put], file: &Option<FileId>) -> Option<&'a str> {
    let file = file.as_ref()?;
    for put in puts {
        if put.file == *file {
            return Some(put.name.as_str());
        }
    }
    None
}

/// The name of the first one that was found so.
fn found_as<'a>(puts: &'a [Put], found: &Metadata) -> Option<&'a str> {
    for put in puts {
        if put.file.is_of(found) {
            return Some(put.name.as_str());
        }
    }
    None
}

/// Whether one of them stands, so that it can be a file that is read.
fn any_stands(puts: &[Put]) -> bool {
    for put in puts {
        if put.file.stands() {
            return true;
        }
    }
    false
}

/// The first recipe that is a file that is put.
fn line_of_recipes<R: Files>(
    alloc: Global,
    rt: &R,
    repo: &str,
    puts: &[Put],
) -> Result<Option<String>, AllocError> {
    if !any_stands(puts) {
        return Ok(None);
    }
    let folder = format!(in alloc; "{repo}/packages")?;
    for package in names_in(alloc, rt, folder.as_str())? {
        let path = format!(in alloc; "{folder}/{package}/package.py")?;
        let Ok(found) = fs::metadata(rt, path.as_str()) else {
            continue;
        };
        if let Some(name) = found_as(puts, &found) {
            let other = format!(in alloc; "recipe {package}")?;
            return Ok(Some(line_of(alloc, name, other.as_str())?));
        }
    }
    Ok(None)
}

/// The names in a folder; none where it cannot be listed.
fn names_in<R: Files>(alloc: Global, rt: &R, folder: &str) -> Result<Vec<String>, AllocError> {
    match RealDesk::new(rt).list(alloc, folder) {
        Ok(names) => Ok(names),
        Err(DeskFault::OutOfMemory) => Err(AllocError),
        Err(_) => Ok(Vec::new(alloc)),
    }
}
