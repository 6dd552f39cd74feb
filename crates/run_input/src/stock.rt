//! What a command names besides its specs: settings, recipes, installed packages.

ghost use Rattle.std.specs.Prelude.{IfSome};
ghost use Rattle.run_answers.specs.Reads.{OnlyReads};
ghost use Rattle.run_answers.specs.Stops.{Gives};
ghost use Rattle.run_input.specs.Inputs.{Behind, OverSettings, StockAt, FailsAtInput, FailsBehind};
ghost use Rattle.run_input.specs.Named.{FailsThere};

use crate::repository::read_repository;
use crate::{Command, ReadRecipes, ReadRecords, ReadSettings, ReadStop, read_installed, read_site};
use outside_desk::Desk;
use std::alloc::Global;
use std::thread::Threads;

/// What a command names besides its specs.
#[derive(Drop)]
pub struct Stock {
    pub settings: ReadSettings,
    pub recipes: ReadRecipes,
    pub records: ReadRecords,
}

/// The database, behind the others.
#[tactic(auto, using(crate::proofs::Failing::of_file))]
fn read_behind<D: Desk>(
    alloc: Global,
    desk: &mut D,
    command: &Command<'_>,
    settings: ReadSettings,
    recipes: ReadRecipes,
) -> Result<Stock, ReadStop>
    ensures read { IfSome (D.files desk.new)
        (λ files. Gives result (Behind files command.now settings recipes)) }
    ensures path { FailsThere command.now.database result }
    ensures only_reads { OnlyReads D.files D.faults D.put_faults desk.old desk.new result }
{
    match read_installed(alloc, desk, command.database) {
        Ok(records) => Ok(Stock {
            settings,
            recipes,
            records,
        }),
        Err(stop) => Err(stop),
    }
}

/// The repository, and then what is behind it.
#[tactic(auto, using(crate::proofs::Failing::of_repository))]
fn read_over<R: Threads + Sync, D: Desk>(
    rt: &R,
    alloc: Global,
    desk: &mut D,
    command: &Command<'_>,
    settings: ReadSettings,
) -> Result<Stock, ReadStop>
    ensures read { IfSome (D.files desk.new)
        (λ files. Gives result (OverSettings files command.now settings)) }
    ensures path { FailsBehind (D.files desk.new) command.now result }
    ensures only_reads { OnlyReads D.files D.faults D.put_faults desk.old desk.new result }
{
    match read_repository(rt, alloc, desk, command.repo) {
        Ok(recipes) => read_behind(alloc, desk, command, settings, recipes),
        Err(stop) => Err(stop),
    }
}

/// What a command names over the desk's files besides its specs.
///
/// # Errors
///
/// The first refusal that is due, in the order of work: the settings, the listing and the reading
/// of all recipe files, their parsing, the clash of names, the database. `Fault` where the desk
/// failed.
#[tactic(auto, using(crate::proofs::Failing::of_settings))]
pub(crate) fn read_stock<R: Threads + Sync, D: Desk>(
    rt: &R,
    alloc: Global,
    desk: &mut D,
    command: &Command<'_>,
) -> Result<Stock, ReadStop>
    ensures read { IfSome (D.files desk.new) (λ files. Gives result (StockAt files command.now)) }
    ensures path { FailsAtInput (D.files desk.new) command.now result }
    ensures only_reads { OnlyReads D.files D.faults D.put_faults desk.old desk.new result }
{
    let settings = read_site(alloc, desk, command.settings)?;
    read_over(rt, alloc, desk, command, settings)
}
