//! Rows of versions.
use crate::fields::{Field, text_of, truth};
use crate::stop::{Stop, agreed};
use plain_data::{Duplicate, Same};
use std::alloc::Global;
use version_order::{Version, VersionFault, cutting_laws, laws, reading_laws, worked_order};

/// The text of the version that is read, or the fault.
fn shown(alloc: Global, read: Result<Version, VersionFault>) -> Result<String, Stop> {
    match read {
        Ok(version) => Ok(format!(in alloc; "version {}", version.text())?),
        Err(fault) => Ok(format!(in alloc; "{fault:?}")?),
    }
}

/// What the two readers give.
fn read(alloc: Global, text: &str) -> Result<String, Stop> {
    let got = shown(alloc, Version::read(alloc, text))?;
    let of_bytes = shown(alloc, Version::from_bytes(alloc, text.as_bytes()))?;
    agreed(got, of_bytes.as_str())
}

fn versions_of(alloc: Global, texts: &[Field]) -> Result<Vec<Version>, Stop> {
    let mut versions = Vec::new(alloc);
    for text in texts {
        match Version::from_bytes(alloc, text.as_slice()) {
            Ok(version) => versions.push(version)?,
            Err(_) => return Err(Stop::NoRow),
        }
    }
    Ok(versions)
}

fn are_rising(versions: &[Version]) -> bool {
    for (i, a) in versions.iter().enumerate() {
        for (j, b) in versions.iter().enumerate() {
            if a.compare(b) != i.cmp(&j) {
                return false;
            }
        }
    }
    true
}

/// Whether each is the same as its copy, and as no other.
fn are_apart(alloc: Global, versions: &[Version]) -> Result<bool, Stop> {
    for (i, a) in versions.iter().enumerate() {
        let copy = a.duplicate(alloc)?;
        for (j, b) in versions.iter().enumerate() {
            if copy.same(b) != (i == j) || a.same(b) != (i == j) {
                return Ok(false);
            }
        }
    }
    Ok(true)
}

/// The message of a fault, by its name, or by the place of the wrong byte.
fn message(alloc: Global, fault: &str) -> Result<String, Stop> {
    let fault = match fault {
        "Empty" => VersionFault::Empty,
        "OutOfMemory" => VersionFault::OutOfMemory,
        at => match at.parse::<u64>() {
            Ok(at) => VersionFault::BadByte(at),
            Err(_) => return Err(Stop::NoRow),
        },
    };
    Ok(fault.to_string(alloc)?)
}

/// Calls the laws: their bodies are empty, and so they can be called.
fn call_laws(alloc: Global) -> Result<String, Stop> {
    laws();
    reading_laws();
    cutting_laws();
    worked_order();
    truth(alloc, true)
}

fn answer_over(alloc: Global, name: &str, versions: &[Version]) -> Result<String, Stop> {
    match (name, versions) {
        ("rise", _) => truth(alloc, are_rising(versions)),
        ("apart", _) => truth(alloc, are_apart(alloc, versions)?),
        ("special", [version]) => truth(alloc, version.is_special()),
        ("compare", [a, b]) => Ok(format!(in alloc; "{:?}", a.compare(b))?),
        ("prefix", [a, b]) => truth(alloc, a.is_prefix(b)),
        _ => Err(Stop::NoRow),
    }
}

pub(crate) fn answer(alloc: Global, name: &str, args: &[Field]) -> Result<String, Stop> {
    match (name, args) {
        ("read", [text]) => read(alloc, text_of(text)?),
        ("read_bytes", [bytes]) => shown(alloc, Version::from_bytes(alloc, bytes.as_slice())),
        ("message", [fault]) => message(alloc, text_of(fault)?),
        ("laws", []) => call_laws(alloc),
        _ => answer_over(alloc, name, &versions_of(alloc, args)?),
    }
}
