//! Scenarios replayed, one after the other.

ghost use Rattle.std.specs.Prelude.{◌≡◌, ◌≢◌, ◌≤◌, ◌<◌, Some, IfOk, OnOk, IfSome, length};
ghost use Rattle.std.specs.FinMap.{get};
ghost use Rattle.outside_desk.specs.Files.{StillTells, and_said};
ghost use Rattle.scenario_replay.specs.declared.comparison.Replayed.TheVariants as answers;
ghost use Rattle.scenario_replay.specs.Told.{IsDue, IsWrong, Replays, ReplaysAll, SaysOne, path_of};

use crate::check::verdict_of;
use crate::comparison::{Comparison, Counts, Replayed};
use crate::find::{DEEPEST, Found, find};
use outside_desk::{Desk, ReadFault, Sink, SinkFault, read_whole};
use scenario_reader::{ScenarioError, read_scenario};
use std::alloc::{AllocError, Global};
use std::thread::Threads;

/// The most bytes of a scenario's file.
const LIMIT: u64 = 16 * 1024 * 1024;

/// Why a text is no scenario.
fn wrong_of(alloc: Global, error: ScenarioError) -> Result<Comparison, AllocError>
    ensures { IfOk result IsWrong }
{
    let ScenarioError::Fault(fault) = error else {
        return Err(AllocError);
    };
    let kind = fault.kind;
    if fault.line == 0 {
        return Ok(Comparison::Wrong(format!(in alloc; "{kind}")?));
    }
    let line = fault.line;
    Ok(Comparison::Wrong(format!(in alloc; "line {line}: {kind}")?))
}

/// What comes of a file's bytes.
#[tactic(auto, using(crate::proofs::Due::of_scenario, crate::proofs::Due::of_wrong))]
fn replay_bytes<R: Threads + Sync>(
    rt: &R,
    alloc: Global,
    bytes: &[u8],
) -> Result<Comparison, AllocError>
    ensures { IfOk result (IsDue (Some bytes.now)) }
{
    match read_scenario(alloc, bytes) {
        Ok(scenario) => verdict_of(rt, alloc, &scenario),
        Err(error) => wrong_of(alloc, error),
    }
}

/// A file that is none.
fn wrong(alloc: Global, why: &str) -> Result<Comparison, AllocError>
    ensures { IfOk result IsWrong }
{
    Ok(Comparison::Wrong(String::from_str(alloc, why)?))
}

/// Why there are no bytes of a file.
fn unread_of(alloc: Global, fault: ReadFault) -> Result<Comparison, AllocError>
    ensures { IfOk result IsWrong }
{
    match fault {
        ReadFault::Missing => wrong(alloc, "no such file"),
        ReadFault::Failed => wrong(alloc, "it cannot be read"),
        ReadFault::TooLong => wrong(alloc, "it has more than 16 MiB"),
        ReadFault::OutOfMemory => Err(AllocError),
    }
}

/// What comes of a file.
#[tactic(auto, using(crate::proofs::Due::of_wrong))]
fn replay_file<R: Threads + Sync, D: Desk>(
    rt: &R,
    alloc: Global,
    desk: &mut D,
    path: &str,
) -> Result<Comparison, AllocError>
    ensures due { IfSome (D.files desk.new) (λ m. IfOk result (IsDue (get m path.now))) }
    ensures same { StillTells (D.files desk.old) (D.files desk.new) }
    ensures put_faults { D.put_faults desk.new ≡ D.put_faults desk.old }
{
    match read_whole(alloc, desk, path, LIMIT) {
        Ok(bytes) => replay_bytes(rt, alloc, bytes.as_slice()),
        Err(fault) => unread_of(alloc, fault),
    }
}

#[tactic(auto, using(crate::proofs::Due::of_wrong))]
fn replay_found<R: Threads + Sync, D: Desk>(
    rt: &R,
    alloc: Global,
    desk: &mut D,
    found: &Found,
) -> Result<Comparison, AllocError>
    ensures due { IfSome (D.files desk.new)
        (λ m. IfOk result (IsDue (get m (path_of found.now)))) }
    ensures same { StillTells (D.files desk.old) (D.files desk.new) }
    ensures put_faults { D.put_faults desk.new ≡ D.put_faults desk.old }
{
    match found {
        Found::File(path) => replay_file(rt, alloc, desk, path.as_str()),
        Found::Empty(_) => wrong(alloc, "an empty folder"),
        Found::Closed(_) => wrong(alloc, "it cannot be listed"),
    }
}

fn path_of(found: &Found) -> &str
    ensures { result.now ≡ path_of found.now }
{
    match found {
        Found::File(path) | Found::Empty(path) | Found::Closed(path) => path.as_str(),
    }
}

/// Each word gives a file, a folder that is empty, or one that cannot be listed.
fn find_all<D: Desk>(
    alloc: Global,
    words: &[String],
    desk: &mut D,
) -> Result<Vec<Found>, AllocError>
    ensures enough { IfOk result (λ found. length words.now ≤ length found.items) }
    ensures same { StillTells (D.files desk.old) (D.files desk.new) }
    ensures put_faults { D.put_faults desk.new ≡ D.put_faults desk.old }
{
    let mut found = Vec::new(alloc);
    for word in words {
        find(alloc, desk, word.as_str(), DEEPEST, &mut found)?;
    }
    Ok(found)
}

/// Replays one file, and says what comes of it.
fn replay_one<R: Threads + Sync, D: Desk, O: Sink>(
    rt: &R,
    alloc: Global,
    found: &Found,
    counts: &mut Counts,
    desk: &mut D,
    out: &mut O,
) -> Result<(), SinkFault>
    ensures says { OnOk result (SaysOne (D.files desk.new) (path_of found.now)
        counts.old counts.new (O.said out.old) (O.said out.new)) }
    ensures same { StillTells (D.files desk.old) (D.files desk.new) }
    ensures put_faults { D.put_faults desk.new ≡ D.put_faults desk.old }
{
    let comparison = replay_found(rt, alloc, desk, found)?;
    let lines = comparison.lines(alloc, path_of(found))?;
    counts.add(&comparison);
    out.say(alloc, lines.as_bytes())
}

/// Replays files, and says what comes of each.
#[tactic(auto, using(crate::proofs::Due::none, crate::proofs::Due::one_more_said))]
fn replay_each<R: Threads + Sync, D: Desk, O: Sink>(
    rt: &R,
    alloc: Global,
    all: &[Found],
    desk: &mut D,
    out: &mut O,
) -> Result<Counts, SinkFault>
    ensures says { IfOk result (ReplaysAll (length all.now) (D.files desk.new)
        (O.said out.old) (O.said out.new)) }
    ensures same { StillTells (D.files desk.old) (D.files desk.new) }
    ensures put_faults { D.put_faults desk.new ≡ D.put_faults desk.old }
{
    let mut counts = Counts::none();
    for found in all {
        replay_one(rt, alloc, found, &mut counts, desk, out)?;
    }
    Ok(counts)
}

/// Replays files, and says what comes of each, and the counts.
#[tactic(auto, using(crate::proofs::Due::ended))]
fn replay_all<R: Threads + Sync, D: Desk, O: Sink>(
    rt: &R,
    alloc: Global,
    all: &[Found],
    desk: &mut D,
    out: &mut O,
) -> Result<Replayed, SinkFault>
    ensures says { IfOk result (Replays (length all.now) (D.files desk.new)
        (O.said out.old) (O.said out.new)) }
    ensures same { StillTells (D.files desk.old) (D.files desk.new) }
    ensures put_faults { D.put_faults desk.new ≡ D.put_faults desk.old }
{
    let counts = replay_each(rt, alloc, all, desk, out)?;
    let line = counts.line(alloc)?;
    out.say(alloc, line.as_bytes())?;
    Ok(counts.answer())
}

/// Replays the scenarios of the files and folders that the words name, in their order, and of a
/// folder in the order of the names' bytes.
#[tactic(auto, using(crate::proofs::Due::fewer))]
pub fn replay<R: Threads + Sync, D: Desk, O: Sink>(
    rt: &R,
    alloc: Global,
    words: &[String],
    desk: &mut D,
    out: &mut O,
) -> Replayed
    ensures says { result ≢ answers.Broken → Replays (length words.now) (D.files desk.new)
        (O.said out.old) (O.said out.new) result }
    ensures same { StillTells (D.files desk.old) (D.files desk.new) }
    ensures put_faults { D.put_faults desk.new ≡ D.put_faults desk.old }
{
    let Ok(all) = find_all(alloc, words, desk) else {
        return Replayed::Broken;
    };
    match replay_all(rt, alloc, all.as_slice(), desk, out) {
        Ok(replayed) => replayed,
        Err(_) => Replayed::Broken,
    }
}
