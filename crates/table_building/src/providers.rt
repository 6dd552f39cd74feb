//! The packages that may provide virtuals.
ghost use Rattle.std.specs.Prelude.{◌≡◌, ◌++◌, map, [], IfOk, OnOk};
ghost use Rattle.variant_values.specs.Texts.{with_texts};
ghost use Rattle.problem.specs.Closure.{possible_providers};
ghost use Rattle.table_plan.specs.Plans.{asked_virtuals, possible_packages};

use crate::members::members;
use crate::wanted::asked_virtuals;
use plain_data::{Duplicate, List, Word};
use possible_closure::{Closure, IndexedProblem, possible_providers};
use problem::Problem;
use std::alloc::{AllocError, Global};
use variant_values::ValueSet;

/// The virtuals that edges from the names may name, each with the packages that may provide it.
pub fn possible_virtuals(
    alloc: Global,
    problem: &IndexedProblem,
    names: &Closure,
) -> Result<List<(Word, List<Word>)>, AllocError>
    ensures { IfOk result (λ providers. providers ≡ map (λ virtual. (
      virtual,
      possible_packages problem.now names.now virtual,
    ))
        (asked_virtuals problem.now names.now)) }
{
    let virtuals = asked_virtuals(alloc, problem, names.names())?;
    let providers = with_packages(alloc, problem.problem(), names, virtuals.values())?;
    Ok(providers)
}

// Each virtual with the packages that may provide it.
fn with_packages(
    alloc: Global,
    problem: &Problem,
    names: &Closure,
    virtuals: &[Word],
) -> Result<List<(Word, List<Word>)>, AllocError>
    ensures { IfOk result (λ providers. providers ≡ map (λ virtual. (
      virtual,
      possible_packages problem.now names.now virtual,
    )) virtuals.now) }
{
    let mut providers = List::new(alloc);
    for asked in virtuals {
        let packages = possible_packages(alloc, problem, names, asked)?;
        providers.push((asked.duplicate(alloc)?, packages))?;
    }
    Ok(providers)
}

#[tactic(auto, unfolding(table_plan::specs::Plans::possible_packages))]
fn possible_packages(
    alloc: Global,
    problem: &Problem,
    names: &Closure,
    asked: &Word,
) -> Result<List<Word>, AllocError>
    ensures { IfOk result (λ packages. packages ≡ possible_packages problem.now
        names.now asked.now) }
{
    let providers = provider_set(alloc, problem, asked)?;
    let packages = members(alloc, names, &providers)?;
    Ok(packages)
}

// The names of the possible providers of a virtual, in byte order.
fn provider_set(alloc: Global, problem: &Problem, asked: &Word) -> Result<ValueSet, AllocError>
    ensures { IfOk result (λ set. set ≡ with_texts [] (possible_providers problem.now asked.now)) }
{
    let mut words = Vec::new(alloc);
    add_seconds(
        alloc,
        possible_providers(problem, asked.as_str()),
        &mut words,
    )?;
    Ok(ValueSet::from_words(words))
}

fn add_seconds(
    alloc: Global,
    pairs: &[(Word, Word)],
    words: &mut Vec<Word>,
) -> Result<(), AllocError>
    ensures { OnOk result (words.new.items ≡ words.old.items ++ map (λ pair. pair.1) pairs.now) }
{
    for pair in pairs {
        words.push(pair.1.duplicate(alloc)?)?;
    }
    Ok(())
}
