//! A scenario, by the sections of its text.

ghost use Rattle.std.specs.Prelude.{◌≡◌, IfOk, [], ◌++◌};
ghost use Rattle.std.specs.Option.{option_copied};
ghost use Rattle.scenario_reader.specs.Faults.{Answers};
ghost use Rattle.scenario_reader.specs.Scenarios.{find, word_at, words_of, device_at, devices_in, devices_of, status_of, said_of, files_of, words_in, status_in, scenario_of};

use crate::device::{Device, device_of, is_clash};
use crate::entry::{Entry, text_of};
use crate::fault::{FaultKind, ScenarioError, fault_at};
use crate::kind::Kind;
use plain_data::{Duplicate, List, Word};
use std::alloc::{AllocError, Global};

/// What a run is given, and what it has to answer, to say and to leave.
#[derive(Debug, Drop)]
pub struct Scenario {
    /// The words of the command.
    pub words: List<Word>,
    /// The files before the run, by their paths.
    pub files: List<(Word, List<u8>)>,
    /// What the devices do, in the order of the lines.
    pub devices: List<Device>,
    /// The name of the answer.
    pub status: Word,
    /// What is said on standard output.
    pub out: List<u8>,
    /// What is said on standard error.
    pub err: List<u8>,
    /// The files that are put, as they are after the run. Every other file is as before.
    pub changed: List<(Word, List<u8>)>,
}

/// The section of that kind.
#[tactic(auto, using(crate::proofs::Steps::find_at))]
fn find(entries: &[Entry], kind: Kind) -> Option<&Entry>
    ensures { option_copied result ≡ find kind entries.now }
{
    for entry in entries {
        if entry.kind.is(kind) {
            return Some(entry);
        }
    }
    None
}

/// The word that a line stands for. A blank line among words that are not quoted is refused.
fn word_at(alloc: Global, quoted: bool, item: &(u64, List<u8>)) -> Result<Word, ScenarioError>
    ensures { Answers (word_at quoted item.now) result }
{
    if item.1.is_empty() && !quoted {
        return Err(fault_at(item.0, FaultKind::Blank));
    }
    match text_of(alloc, item.1.as_slice())? {
        Some(word) => Ok(word),
        None => Err(fault_at(item.0, FaultKind::NotText)),
    }
}

#[tactic(auto, using(crate::proofs::Steps::each_at, crate::proofs::Steps::each_more))]
fn words_of(alloc: Global, entry: &Entry) -> Result<List<Word>, ScenarioError>
    ensures { Answers (words_of entry.now) result }
{
    let mut words = List::new(alloc);
    for item in entry.items.as_slice() {
        words.push(word_at(alloc, entry.quoted, item)?)?;
    }
    Ok(words)
}

fn device_at(item: &(u64, List<u8>)) -> Result<Device, ScenarioError>
    ensures { Answers (device_at item.now) result }
{
    match device_of(item.1.as_slice()) {
        Some(device) => Ok(device),
        None => Err(fault_at(item.0, FaultKind::Device)),
    }
}

/// The devices of a section.
#[tactic(auto, using(crate::proofs::Steps::each_at, crate::proofs::Steps::each_more))]
fn devices_in(alloc: Global, entry: &Entry) -> Result<List<Device>, ScenarioError>
    ensures { Answers (devices_in entry.now) result }
{
    let mut devices = List::new(alloc);
    for item in entry.items.as_slice() {
        devices.push(device_at(item)?)?;
    }
    if is_clash(devices.as_slice()) {
        return Err(fault_at(entry.line, FaultKind::EveryCall));
    }
    Ok(devices)
}

fn devices_of(alloc: Global, entry: Option<&Entry>) -> Result<List<Device>, ScenarioError>
    ensures { Answers (devices_of (option_copied entry.entry)) result }
{
    match entry {
        Some(entry) => devices_in(alloc, entry),
        None => Ok(List::new(alloc)),
    }
}

fn status_of(alloc: Global, entry: &Entry) -> Result<Word, ScenarioError>
    ensures { Answers (status_of entry.now) result }
{
    match entry.items.as_slice() {
        [only] => word_at(alloc, false, only),
        _ => Err(fault_at(entry.line, FaultKind::Status)),
    }
}

/// What is said on a stream: nothing, where no section says it.
fn said_of(alloc: Global, entry: Option<&Entry>) -> Result<List<u8>, AllocError>
    ensures { IfOk result (λ bytes. bytes ≡ said_of (option_copied entry.entry)) }
{
    match entry {
        Some(entry) => entry.content(alloc),
        None => Ok(List::new(alloc)),
    }
}

/// The files of the sections of that kind, in their order.
#[tactic(auto, using(crate::proofs::Steps::files_at))]
fn files_of(
    alloc: Global,
    entries: &[Entry],
    kind: Kind,
) -> Result<List<(Word, List<u8>)>, AllocError>
    ensures { IfOk result (λ files. files ≡ files_of kind entries.now) }
{
    let mut files = List::new(alloc);
    for entry in entries {
        if entry.kind.is(kind) {
            files.push((entry.path.duplicate(alloc)?, entry.content(alloc)?))?;
        }
    }
    Ok(files)
}

fn words_in(alloc: Global, entries: &[Entry]) -> Result<List<Word>, ScenarioError>
    ensures { Answers (words_in entries.now) result }
{
    match find(entries, Kind::Words) {
        Some(entry) => words_of(alloc, entry),
        None => Err(fault_at(0, FaultKind::NoWords)),
    }
}

fn status_in(alloc: Global, entries: &[Entry]) -> Result<Word, ScenarioError>
    ensures { Answers (status_in entries.now) result }
{
    match find(entries, Kind::Status) {
        Some(entry) => status_of(alloc, entry),
        None => Err(fault_at(0, FaultKind::NoStatus)),
    }
}

/// The scenario that sections say.
#[tactic(auto, unfolding(crate::specs::Scenarios::scenario_of))]
pub(crate) fn scenario_of(alloc: Global, entries: &[Entry]) -> Result<Scenario, ScenarioError>
    ensures { Answers (scenario_of entries.now) result }
{
    let words = words_in(alloc, entries)?;
    let devices = devices_of(alloc, find(entries, Kind::Devices))?;
    let status = status_in(alloc, entries)?;
    Ok(Scenario {
        words,
        files: files_of(alloc, entries, Kind::File)?,
        devices,
        status,
        out: said_of(alloc, find(entries, Kind::Out))?,
        err: said_of(alloc, find(entries, Kind::Err))?,
        changed: files_of(alloc, entries, Kind::Changed)?,
    })
}
