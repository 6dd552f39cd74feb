//! The virtuals that edges from a name may name.
ghost use Rattle.std.specs.Prelude.{◌≡◌, ◌||◌, ◌++◌, ◌∷◌, [], map, filter, flat_map, filter_map, IfOk, OnOk, if◌then◌else◌};
ghost use Rattle.std.specs.Option.{option_to_list};
ghost use Rattle.keyed_lists.specs.Lent.{lent};
ghost use Rattle.virtuals.specs.Virtuals.{is_virtual};
ghost use Rattle.table_plan.specs.Plans.{recorded_names, wanted_names, wanted_virtuals, asked_virtuals};

use plain_data::{Duplicate, Word};
use possible_closure::IndexedProblem;
use problem::{Problem, depends_at};
use recipe_data::DependRow;
use reuse_db::{Dependency, Record};
use std::alloc::{AllocError, Global};
use variant_values::ValueSet;

/// The virtuals that edges from a name may name.
#[tactic(auto, unfolding(table_plan::specs::Plans::wanted_virtuals))]
pub fn wanted_virtuals(
    alloc: Global,
    problem: &IndexedProblem,
    name: &Word,
) -> Result<ValueSet, AllocError>
    ensures { IfOk result (λ set. set ≡ wanted_virtuals problem.now name.now) }
{
    let mut wanted = Vec::new(alloc);
    add_wanted(alloc, problem, name, &mut wanted)?;
    let words = only_virtuals(alloc, problem.problem(), wanted.as_slice())?;
    Ok(ValueSet::from_words(words))
}

/// Those that edges from any of the names may name.
#[tactic(auto, unfolding(table_plan::specs::Plans::asked_virtuals))]
pub fn asked_virtuals(
    alloc: Global,
    problem: &IndexedProblem,
    names: &[Word],
) -> Result<ValueSet, AllocError>
    ensures { IfOk result (λ virtuals. virtuals ≡ asked_virtuals problem.now names.now) }
{
    let asked = asked_names(alloc, problem, names)?;
    let words = only_virtuals(alloc, problem.problem(), asked.as_slice())?;
    Ok(ValueSet::from_words(words))
}

fn asked_names(
    alloc: Global,
    problem: &IndexedProblem,
    names: &[Word],
) -> Result<Vec<Word>, AllocError>
    ensures { IfOk result (λ asked. asked.items ≡ flat_map (wanted_names problem.now) names.now) }
{
    let mut asked = Vec::new(alloc);
    for name in names {
        add_wanted(alloc, problem, name, &mut asked)?;
    }
    Ok(asked)
}

// What the `depends_on` of a name ask for, and what its records have.
#[tactic(auto, unfolding(table_plan::specs::Plans::wanted_names))]
fn add_wanted(
    alloc: Global,
    problem: &IndexedProblem,
    name: &Word,
    wanted: &mut Vec<Word>,
) -> Result<(), AllocError>
    ensures { OnOk result (wanted.new.items ≡ wanted.old.items
        ++ wanted_names problem.now name.now) }
{
    let records = problem.records_of(name.as_str());
    add_asked(alloc, depends_at(problem.problem(), name.as_str()), wanted)?;
    add_recorded(alloc, records, wanted)
}

fn add_asked(alloc: Global, rows: &[DependRow], asked: &mut Vec<Word>) -> Result<(), AllocError>
    ensures { OnOk result (asked.new.items ≡ asked.old.items
        ++ filter_map (λ row. row.part.name) rows.now) }
{
    for row in rows {
        add_written(alloc, &row.part.name, asked)?;
    }
    Ok(())
}

fn add_written(
    alloc: Global,
    written: &Option<Word>,
    words: &mut Vec<Word>,
) -> Result<(), AllocError>
    ensures { OnOk result (words.new.items ≡ words.old.items ++ option_to_list written.now) }
{
    if let Some(word) = written {
        words.push(word.duplicate(alloc)?)?;
    }
    Ok(())
}

fn add_recorded(
    alloc: Global,
    records: &[(&str, &Record)],
    wanted: &mut Vec<Word>,
) -> Result<(), AllocError>
    ensures { OnOk result (wanted.new.items ≡ wanted.old.items
        ++ flat_map recorded_names (map (λ e. e.1) (lent records.now))) }
{
    for entry in records {
        add_names(alloc, entry.1.dependencies.as_slice(), wanted)?;
    }
    Ok(())
}

fn add_names(
    alloc: Global,
    dependencies: &[Dependency],
    wanted: &mut Vec<Word>,
) -> Result<(), AllocError>
    ensures { OnOk result (wanted.new.items ≡ wanted.old.items ++ flat_map (λ d. d.virtuals)
        (filter (λ d. d.kinds.link || d.kinds.run) dependencies.now)) }
{
    for dependency in dependencies {
        add_named(alloc, dependency, wanted)?;
    }
    Ok(())
}

fn add_named(
    alloc: Global,
    dependency: &Dependency,
    wanted: &mut Vec<Word>,
) -> Result<(), AllocError>
    ensures { OnOk result (wanted.new.items ≡ wanted.old.items
        ++ (if dependency.now.kinds.link || dependency.now.kinds.run then dependency.now.virtuals
        else [])) }
{
    let kept = dependency.kinds.link || dependency.kinds.run;
    if kept {
        add_words(alloc, dependency.virtuals.values(), wanted)?;
    }
    Ok(())
}

fn add_words(alloc: Global, words: &[Word], wanted: &mut Vec<Word>) -> Result<(), AllocError>
    ensures { OnOk result (wanted.new.items ≡ wanted.old.items ++ words.now) }
{
    for word in words {
        wanted.push(word.duplicate(alloc)?)?;
    }
    Ok(())
}

fn only_virtuals(alloc: Global, problem: &Problem, asked: &[Word]) -> Result<Vec<Word>, AllocError>
    ensures { IfOk result (λ words. words.items
        ≡ filter (is_virtual problem.now.recipes) asked.now) }
{
    let mut words = Vec::new(alloc);
    for name in asked {
        add_virtual(alloc, problem, name, &mut words)?;
    }
    Ok(words)
}

fn add_virtual(
    alloc: Global,
    problem: &Problem,
    name: &Word,
    words: &mut Vec<Word>,
) -> Result<(), AllocError>
    ensures { OnOk result (words.new.items ≡ words.old.items
        ++ (if is_virtual problem.now.recipes name.now then name.now ∷ [] else [])) }
{
    if problem.world().is_virtual(name.as_str()) {
        words.push(name.duplicate(alloc)?)?;
    }
    Ok(())
}
