//! What is said of installed packages that were looked for.

ghost use Rattle.std.specs.Prelude.{◌≡◌, ◌++◌, slice_get, IfOk, OnOk};
ghost use Rattle.std.specs.Option.{option_copied};
ghost use Rattle.run_task.specs.declared.task.Task.TheVariants as tasks;
ghost use Rattle.run_output.specs.Evidence.{evidence};
ghost use Rattle.run_output.specs.Report.{found_line, found_text, line_if_there};
ghost use Rattle.run_output.specs.Told.{Tells};

use crate::answer::Outcome;
use crate::report::write_record;
use crate::said::Said;
use reuse_db::{Database, Record};
use run_task::Query;
use spec_find::find;
use std::alloc::{AllocError, Global};

/// The installed package at a place.
fn record_at(database: &Database, place: u64) -> Option<&Record>
    ensures { option_copied result ≡ slice_get database.now place }
{
    database.records().get(place as usize)
}

/// The line of an installed package, where there is one.
fn write_if_there(
    alloc: Global,
    entry: Option<&Record>,
    out: &mut Vec<u8>,
) -> Result<(), AllocError>
    ensures { OnOk result (out.new.items ≡ out.old.items
        ++ line_if_there (option_copied entry.entry)) }
{
    match entry {
        Some(entry) => write_record(alloc, entry, out),
        None => Ok(()),
    }
}

#[tactic(auto, unfolding(crate::specs::Report::found_line))]
fn write_count(alloc: Global, count: usize, out: &mut Vec<u8>) -> Result<(), AllocError>
    ensures { OnOk result (out.new.items ≡ out.old.items ++ found_line count) }
{
    let line = format!(in alloc; "found {count}\n")?;
    out.extend_from_slice(line.as_bytes())
}

/// A line for each of these installed packages, and how many they are.
fn found_text(alloc: Global, database: &Database, places: &[u64]) -> Result<Vec<u8>, AllocError>
    ensures { IfOk result (λ text. text.items ≡ found_text database.now places.now) }
{
    let mut text = Vec::new(alloc);
    for place in places {
        write_if_there(alloc, record_at(database, *place), &mut text)?;
    }
    write_count(alloc, places.len(), &mut text)?;
    Ok(text)
}

/// Of the installed packages that meet a condition.
pub(crate) fn of_query(alloc: Global, query: &Query) -> Result<Said, AllocError>
    ensures { IfOk result (λ said. Tells evidence (tasks.Find query.now) said.outcome
        said.text.items) }
{
    let (world, database) = (query.problem.world(), query.problem.database());
    let places = find(alloc, &world, database, &query.spec)?;
    Ok(Said {
        text: found_text(alloc, database, places.as_slice())?,
        outcome: Outcome::Solved,
    })
}
