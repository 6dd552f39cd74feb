//! The problem that the settings, the recipes and the roots pose.

ghost use Rattle.std.specs.Prelude.{◌≡◌, true, Ok, IfOk, IfSome};
ghost use Rattle.std.specs.List.{list_all};
ghost use Rattle.recipe_data.specs.Right.{is_right_recipe};
ghost use Rattle.virtuals.specs.Virtuals.{AreInOrder};
ghost use Rattle.problem.specs.Limits.{are_few_records, are_few_rows, are_small, is_within_limits};
ghost use Rattle.table_plan.specs.Kept.{has_right_values};
ghost use Rattle.settings_reader.specs.Values.{are_valued};
ghost use Rattle.file_limits.specs.Values.{has_values};
ghost use Rattle.run_answers.specs.Stages.{Is};
ghost use Rattle.run_answers.specs.Reads.{OnlyReads};
ghost use Rattle.run_answers.specs.Stops.{Gives, EndsInReadFault};
ghost use Rattle.run_input.specs.Roots.{RootsOf, are_named};
ghost use Rattle.run_input.specs.Inputs.{posed_by, closed_of, InputBy, OverSpecs, IsPosed, ReadsInput, FailsAtInput};

use crate::roots::read_roots;
use crate::stock::read_stock;
use crate::{Command, ReadRoots, ReadStop, Refusal, Stock};
use outside_desk::Desk;
use plain_data::List;
use possible_closure::{Closure, ClosureFault, closure};
use problem::{Problem, ProblemFault, assemble};
use recipe_data::Recipe;
use reuse_db::Database;
use site_settings::Settings;
use spec_grammar::Spec;
use std::alloc::Global;
use std::thread::Threads;

/// What a run reads.
#[derive(Drop)]
pub struct Input {
    /// The problem that the recipes, the settings and the specs pose.
    pub problem: Problem,
    /// The names that nodes of its graphs may have.
    pub closure: Closure,
}

/// The problem of recipes, settings, records and roots.
#[tactic(auto, unfolding(crate::specs::Inputs::posed_by))]
pub(crate) fn posed(
    alloc: Global,
    recipes: List<Recipe>,
    settings: Settings,
    database: Database,
    roots: List<Spec>,
) -> Result<Problem, ReadStop>
    requires order { AreInOrder recipes }
    requires right { list_all is_right_recipe recipes ≡ true }
    requires few_rows { are_few_rows recipes ≡ true }
    requires named { are_named roots ≡ true }
    requires externals { are_valued settings ≡ true }
    requires small { are_small settings ≡ true }
    requires records { list_all has_values database ≡ true }
    requires few_records { are_few_records database ≡ true }
    ensures read { Gives result (Is (posed_by recipes settings database roots)) }
    ensures roots { IfOk result (λ problem. problem.roots ≡ roots) }
    ensures values { IfOk result (λ problem. has_right_values problem ≡ true) }
    ensures limits { IfOk result (λ problem. is_within_limits problem ≡ true) }
    ensures no_fault { EndsInReadFault result → ⊥ }
{
    match assemble(alloc, recipes, settings, database, roots) {
        Ok(problem) => Ok(problem),
        Err(ProblemFault::UnknownRoot(name)) => Err(ReadStop::Refused(Refusal::UnknownRoot(name))),
        Err(ProblemFault::VirtualRoot(name)) => Err(ReadStop::Refused(Refusal::VirtualRoot(name))),
        Err(ProblemFault::WrongPlatform(platform)) => {
            Err(ReadStop::Refused(Refusal::WrongPlatform(platform)))
        }
        Err(ProblemFault::OutOfMemory) => Err(ReadStop::NoMemory),
    }
}

/// What a run reads: the problem, with the names that its nodes may have.
#[tactic(auto, unfolding(crate::specs::Inputs::closed_of))]
fn closed(alloc: Global, problem: Problem) -> Result<Input, ReadStop>
    requires values { has_right_values problem ≡ true }
    requires limits { is_within_limits problem ≡ true }
    ensures read { Gives result (Is (closed_of problem)) }
    ensures roots { IfOk result (λ input. input.problem.roots ≡ problem.roots) }
    ensures posed { IfOk result IsPosed }
    ensures no_fault { EndsInReadFault result → ⊥ }
{
    match closure(alloc, &problem) {
        Ok(closure) => Ok(Input { problem, closure }),
        Err(ClosureFault::TooManyPackages) => Err(ReadStop::Refused(Refusal::TooManyPackages)),
        Err(ClosureFault::OutOfMemory) => Err(ReadStop::NoMemory),
    }
}

/// The problem, and then its names.
fn put_together(alloc: Global, stock: Stock, roots: ReadRoots) -> Result<Input, ReadStop>
    ensures read { Gives result (InputBy stock.recipes stock.settings stock.records roots) }
    ensures roots { IfOk result (λ input. input.problem.roots ≡ roots) }
    ensures posed { IfOk result IsPosed }
    ensures no_fault { EndsInReadFault result → ⊥ }
{
    let Stock {
        settings,
        recipes,
        records,
    } = stock;
    let (recipes, settings) = (recipes.recipes(), settings.settings());
    let problem = posed(alloc, recipes, settings, records.records(), roots.roots())?;
    closed(alloc, problem)
}

/// The specs, and then the problem.
fn read_asked(alloc: Global, stock: Stock, spec: &str) -> Result<Input, ReadStop>
    ensures read { Gives result (OverSpecs spec.now stock) }
    ensures roots { IfOk result (λ input. RootsOf spec.now (Ok input.problem.roots)) }
    ensures posed { IfOk result IsPosed }
    ensures no_fault { EndsInReadFault result → ⊥ }
{
    match read_roots(alloc, spec) {
        Ok(roots) => put_together(alloc, stock, roots),
        Err(stop) => Err(stop),
    }
}

/// What a command names over the desk's files.
///
/// # Errors
///
/// The first refusal that is due, in the order of work: the settings, the listing and the reading
/// of all recipe files, their parsing, the clash of names, the database, the specs, the roots, the
/// closure. `Fault` where the desk failed.
#[tactic(auto, using(crate::proofs::Failing::of_stock))]
pub fn read_input<R: Threads + Sync, D: Desk>(
    rt: &R,
    alloc: Global,
    desk: &mut D,
    command: &Command<'_>,
) -> Result<Input, ReadStop>
    ensures read { IfSome (D.files desk.new)
        (λ files. Gives result (ReadsInput files command.now)) }
    ensures roots { IfOk result (λ input. RootsOf command.now.spec (Ok input.problem.roots)) }
    ensures posed { IfOk result IsPosed }
    ensures path { FailsAtInput (D.files desk.new) command.now result }
    ensures only_reads { OnlyReads D.files D.faults D.put_faults desk.old desk.new result }
{
    match read_stock(rt, alloc, desk, command) {
        Ok(stock) => read_asked(alloc, stock, command.spec.as_str()),
        Err(stop) => Err(stop),
    }
}
