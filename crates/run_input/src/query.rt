//! What a command looks for among the installed packages.

ghost use Rattle.std.specs.Prelude.{◌≡◌, Ok, [], IfOk, IfSome};
ghost use Rattle.problem.specs.Problems.{problem_of};
ghost use Rattle.run_answers.specs.Stages.{Is};
ghost use Rattle.run_answers.specs.Reads.{OnlyReads};
ghost use Rattle.run_answers.specs.Stops.{Gives, EndsInReadFault};
ghost use Rattle.run_input.specs.Roots.{ConditionIn, ConditionOf};
ghost use Rattle.run_input.specs.Inputs.{Seeks, Sought, FailsAtInput};
ghost use Rattle.run_input.specs.Inputs as inputs;

use crate::input::posed;
use crate::roots::SPECS_LIMIT;
use crate::stock::read_stock;
use crate::{Command, ReadStop, Refusal, Stock};
use outside_desk::Desk;
use plain_data::List;
use problem::Problem;
use spec_grammar::{Spec, SpecFault, read_condition};
use std::alloc::Global;
use std::thread::Threads;

/// What is looked for among the installed packages.
#[derive(Drop)]
pub struct Query {
    /// The recipes, the settings and the installed packages, without roots.
    pub problem: Problem,
    /// What is to hold of a package.
    pub spec: Spec,
}

/// The condition that a text spells.
fn condition_in(alloc: Global, text: &str) -> Result<Spec, ReadStop>
    ensures read { Gives result (ConditionIn text.now) }
    ensures no_fault { EndsInReadFault result → ⊥ }
{
    match read_condition(alloc, text) {
        Ok(spec) => Ok(spec),
        Err(SpecFault::OutOfMemory) => Err(ReadStop::NoMemory),
        Err(fault) => Err(ReadStop::Refused(Refusal::BadSpecs(fault))),
    }
}

/// The condition that the text of the specs is.
fn condition_of(alloc: Global, text: &str) -> Result<Spec, ReadStop>
    ensures read { Gives result (ConditionOf text.now) }
    ensures no_fault { EndsInReadFault result → ⊥ }
{
    if text.len() > SPECS_LIMIT {
        return Err(ReadStop::Refused(Refusal::SpecsTooLarge));
    }
    condition_in(alloc, text)
}

/// The problem of a stock without roots.
#[tactic(auto, using(crate::proofs::Queries::posed_without))]
fn without_roots(alloc: Global, stock: Stock) -> Result<Problem, ReadStop>
    ensures read { Gives result (Is
        (Ok (problem_of stock.recipes stock.settings stock.records []))) }
    ensures no_fault { EndsInReadFault result → ⊥ }
{
    let Stock {
        settings,
        recipes,
        records,
    } = stock;
    let (recipes, settings) = (recipes.recipes(), settings.settings());
    posed(
        alloc,
        recipes,
        settings,
        records.records(),
        List::new(alloc),
    )
}

/// A stock without roots, and a condition.
#[tactic(auto, using(crate::proofs::Queries::query_read, crate::proofs::Queries::query_stop))]
fn query_of(alloc: Global, stock: Stock, spec: Spec) -> Result<Query, ReadStop>
    ensures read { Gives result (Is (Ok (inputs.query_of stock spec))) }
    ensures condition { IfOk result (λ query. query.spec ≡ spec) }
    ensures no_fault { EndsInReadFault result → ⊥ }
{
    match without_roots(alloc, stock) {
        Ok(problem) => Ok(Query { problem, spec }),
        Err(stop) => Err(stop),
    }
}

/// The condition, and then the problem.
fn read_sought(alloc: Global, stock: Stock, spec: &str) -> Result<Query, ReadStop>
    ensures read { Gives result (Sought spec.now stock) }
    ensures condition { IfOk result (λ query. ConditionOf spec.now (Ok query.spec)) }
    ensures no_fault { EndsInReadFault result → ⊥ }
{
    match condition_of(alloc, spec) {
        Ok(condition) => query_of(alloc, stock, condition),
        Err(stop) => Err(stop),
    }
}

/// What a command looks for over the desk's files.
///
/// # Errors
///
/// The first refusal that is due, in the order of work: the settings, the listing and the reading
/// of all recipe files, their parsing, the clash of names, the database, the condition. `Fault`
/// where the desk failed.
#[tactic(auto, using(crate::proofs::Failing::of_stock))]
pub fn read_query<R: Threads + Sync, D: Desk>(
    rt: &R,
    alloc: Global,
    desk: &mut D,
    command: &Command<'_>,
) -> Result<Query, ReadStop>
    ensures read { IfSome (D.files desk.new) (λ files. Gives result (Seeks files command.now)) }
    ensures condition { IfOk result (λ query. ConditionOf command.now.spec (Ok query.spec)) }
    ensures path { FailsAtInput (D.files desk.new) command.now result }
    ensures only_reads { OnlyReads D.files D.faults D.put_faults desk.old desk.new result }
{
    match read_stock(rt, alloc, desk, command) {
        Ok(stock) => read_sought(alloc, stock, command.spec.as_str()),
        Err(stop) => Err(stop),
    }
}
