//! The reader of scenarios.

ghost use Rattle.std.specs.Prelude.{◌≡◌, IfOk, IfErr};
ghost use Rattle.scenario_reader.specs.Faults.{Answers};
ghost use Rattle.scenario_reader.specs.Sections.{sections_of};
ghost use Rattle.scenario_reader.specs.Scenarios.{meaning_of};

use crate::draft::Draft;
use crate::entry::Entry;
use crate::fault::ScenarioError;
use crate::line::next_line;
use crate::scenario::{Scenario, scenario_of};
use plain_data::List;
use std::alloc::Global;

/// The sections of a text.
fn read_sections(alloc: Global, text: &[u8]) -> Result<List<Entry>, ScenarioError>
    ensures { Answers (sections_of text.now) result }
{
    let mut draft = Draft::new(alloc);
    let mut rest = text;
    let mut number: u64 = 1;
    while !rest.is_empty() {
        let (line, more) = next_line(rest);
        draft.take(alloc, number, line)?;
        rest = more;
        number += 1;
    }
    draft.close()?;
    Ok(draft.done)
}

/// The scenario that a text says.
///
/// # Errors
///
/// The first fault of the lines, in their order, from `Marker` to `UnknownWant`; then that of the
/// words, of the devices and of the status. `OutOfMemory` where there was no memory.
pub fn read_scenario(alloc: Global, text: &[u8]) -> Result<Scenario, ScenarioError>
    ensures { Answers (meaning_of text.now) result }
{
    let entries = read_sections(alloc, text)?;
    scenario_of(alloc, entries.as_slice())
}
