//! Putting a problem together.
ghost use Rattle.std.specs.Prelude.{◌≡◌, true, None, is_some, IfOk, IfErr, OnOk, map, option_map};
ghost use Rattle.std.specs.Prelude.{◌∷◌, ◌++◌};
ghost use Rattle.std.specs.List.{list_all, range_with_len};
ghost use Rattle.condition_rules.specs.OfConditions.Right.{is_right_recipe};
ghost use Rattle.condition_rules.specs.OfVirtuals.Virtuals.{AreInOrder, AreProviders};
ghost use Rattle.problem.specs.Demands.{directives_of, settings_of};
ghost use Rattle.problem.specs.Problems.{problem_of};
ghost use Rattle.problem.specs.Roots.{IsProblemFault, name_fault, root_fault, first_fault};
ghost use Rattle.problem.specs.Roots.{roots_fault, wrong_platform};
ghost use Rattle.problem.specs.declared.demand.Demand.TheVariants.{Root};
ghost use Rattle.problem.specs.declared.fault.ProblemFault.TheVariants.{WrongPlatform};

use crate::demands::all_demands;
use crate::known::is_known;
use crate::platforms::wrong_platform;
use crate::problem::Shared;
use crate::required::required_of;
use crate::{Demand, Problem, ProblemFault};
use condition_rules::{ProvidedRows, Providers, Recipe, Spec};
use plain_data::{Duplicate, List, Word};
use reuse_db::Database;
use site_settings::{PackageEntry, Settings};
use std::alloc::{AllocError, Global};
use std::sync::Arc;

/// The problem of these parts; takes them whatever it answers.
///
/// It looks at the requested specs in order, and at each for what `ProblemFault` names, in its
/// order.
#[tactic(auto, unfolding(crate::specs::Demands::demands), using(crate::proofs::AssembledLaws::assembled))]
pub fn assemble(
    alloc: Global,
    recipes: List<Recipe>,
    settings: Settings,
    database: Database,
    roots: List<Spec>,
) -> Result<Problem, ProblemFault>
    requires order { AreInOrder recipes }
    requires right { list_all is_right_recipe recipes ≡ true }
    requires named { list_all (λ spec. is_some spec.top.name) roots ≡ true }
    ensures problem { IfOk result (λ problem. problem
        ≡ problem_of recipes settings database roots) }
    ensures known { OnOk result (roots_fault (problem_of recipes settings database roots) ≡ None) }
    ensures fault { IfErr result (IsProblemFault (problem_of recipes settings database roots)) }
{
    let found = found_in(
        alloc,
        recipes.as_slice(),
        roots.len(),
        settings.packages.as_slice(),
    )?;
    let provided = ProvidedRows::of_recipes(alloc, recipes.as_slice())?;
    let required = required_of(alloc, settings.packages.as_slice())?;
    let shared = Shared {
        recipes,
        settings,
        database,
        providers: found.0,
        provided,
        demands: found.1,
        most: roots.len(),
        required,
    };
    let shared = match Arc::new(alloc, shared) {
        Ok(shared) => shared,
        Err(_) => return Err(ProblemFault::OutOfMemory),
    };
    let problem = Problem { shared, roots };
    unless_refused(alloc, problem)
}

// What the recipes provide, and what may be demanded.
fn found_in(
    alloc: Global,
    recipes: &[Recipe],
    roots: usize,
    packages: &[PackageEntry],
) -> Result<(Providers, List<Demand>), AllocError>
    ensures providers { IfOk result (λ found. AreProviders recipes.now found.0) }
    ensures demands { IfOk result (λ found. found.1 ≡ (map Root (range_with_len 0 roots)
        ++ directives_of recipes.now) ++ settings_of packages.now) }
{
    let providers = Providers::of_recipes(alloc, recipes)?;
    let demands = all_demands(alloc, roots, recipes, packages)?;
    Ok((providers, demands))
}

/// The problem itself, or why one of its roots is refused.
fn unless_refused(alloc: Global, problem: Problem) -> Result<Problem, ProblemFault>
    ensures problem { IfOk result (λ made. made ≡ problem) }
    ensures known { OnOk result (roots_fault problem ≡ None) }
    ensures fault { IfErr result (IsProblemFault problem) }
{
    match refused(alloc, &problem) {
        Ok(None) => Ok(problem),
        Ok(Some(fault)) => {
            drop(problem);
            Err(fault)
        }
        Err(fault) => {
            drop(problem);
            Err(ProblemFault::from(fault))
        }
    }
}

// The fault of the first root that has one.
#[tactic(auto, unfolding(crate::specs::Roots::roots_fault))]
fn refused(alloc: Global, problem: &Problem) -> Result<Option<ProblemFault>, AllocError>
    ensures { IfOk result (λ fault. fault ≡ roots_fault problem.now) }
{
    first_of(alloc, problem, problem.roots())
}

/// The first fault of a requested spec.
fn first_of(
    alloc: Global,
    problem: &Problem,
    roots: &[Spec],
) -> Result<Option<ProblemFault>, AllocError>
    ensures { IfOk result (λ fault. fault ≡ first_fault problem.now roots.now) }
{
    for spec in roots {
        let fault = fault_of(alloc, problem, spec)?;
        if fault.is_some() {
            return Ok(fault);
        }
    }
    Ok(None)
}

fn fault_of(
    alloc: Global,
    problem: &Problem,
    spec: &Spec,
) -> Result<Option<ProblemFault>, AllocError>
    ensures { IfOk result (λ fault. fault ≡ root_fault problem.now spec.now) }
{
    match name_fault(alloc, problem, &spec.top.name)? {
        Some(fault) => Ok(Some(fault)),
        None => platform_fault(alloc, problem.settings().platform.as_str(), spec),
    }
}

/// What is wrong with a root's name: it is a virtual, or nothing has it.
fn name_fault(
    alloc: Global,
    problem: &Problem,
    name: &Option<Word>,
) -> Result<Option<ProblemFault>, AllocError>
    ensures { IfOk result (λ fault. fault ≡ name_fault problem.now name.now) }
{
    let Some(name) = name else {
        return Ok(None);
    };
    if problem.world().is_virtual(name.as_str()) {
        return Ok(Some(ProblemFault::VirtualRoot(name.duplicate(alloc)?)));
    }
    if is_known(problem, name.as_str()) {
        return Ok(None);
    }
    Ok(Some(ProblemFault::UnknownRoot(name.duplicate(alloc)?)))
}

fn platform_fault(
    alloc: Global,
    platform: &str,
    spec: &Spec,
) -> Result<Option<ProblemFault>, AllocError>
    ensures { IfOk result (λ fault. fault ≡ option_map WrongPlatform
        (wrong_platform platform.now (spec.now.top ∷ spec.now.below))) }
{
    match wrong_platform(platform, spec) {
        Some(word) => Ok(Some(ProblemFault::WrongPlatform(word.duplicate(alloc)?))),
        None => Ok(None),
    }
}
