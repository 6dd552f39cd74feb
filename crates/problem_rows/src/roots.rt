//! Problems of requested specs.

ghost use Rattle.std.specs.Prelude.{◌≡◌, true, is_some};
ghost use Rattle.std.specs.List.{list_all};
ghost use Rattle.recipe_data.specs.Right.{is_right_recipe};
ghost use Rattle.virtuals.specs.Virtuals.{AreInOrder};

use crate::site::Site;
use plain_data::List;
use possible_closure::{Closure, ClosureFault, closure};
use problem::{Demand, Problem, ProblemFault, assemble};
use recipe_data::Recipe;
use spec_grammar::{Spec, SpecFault, read_specs};
use std::alloc::{AllocError, Global};

fn push_demand(alloc: Global, text: &mut String, demand: &Demand) -> Result<(), AllocError> {
    match demand {
        Demand::Root(place) => text.push_str(format!(in alloc; " {place}")?.as_str()),
        Demand::Directive { package, number } => {
            let name = package.as_str();
            text.push_str(format!(in alloc; " {name}/{number}")?.as_str())
        }
        Demand::Setting { package, number } => {
            let name = package.as_str();
            text.push_str(format!(in alloc; " {name}:{number}")?.as_str())
        }
    }
}

fn demands_text(alloc: Global, problem: &Problem) -> Result<String, AllocError> {
    let mut text = String::from_str(alloc, "demands")?;
    for id in 0..problem.demands() {
        if let Some(demand) = problem.demand(id) {
            push_demand(alloc, &mut text, demand)?;
        }
    }
    Ok(text)
}

fn fault_text(alloc: Global, fault: ProblemFault) -> Result<String, AllocError> {
    match fault {
        ProblemFault::UnknownRoot(name) => {
            let name = name.as_str();
            format!(in alloc; "unknown {name}")
        }
        ProblemFault::VirtualRoot(name) => {
            let name = name.as_str();
            format!(in alloc; "virtual {name}")
        }
        ProblemFault::WrongPlatform(word) => {
            let word = word.as_str();
            format!(in alloc; "platform {word}")
        }
        ProblemFault::OutOfMemory => Err(AllocError),
    }
}

fn demanded(alloc: Global, problem: Problem) -> Result<String, AllocError> {
    let text = demands_text(alloc, &problem);
    drop(problem);
    text
}

fn names_text(alloc: Global, closure: &Closure) -> Result<String, AllocError> {
    let mut text = String::from_str(alloc, "names")?;
    for name in closure.names() {
        text.push_str(" ")?;
        text.push_str(name.as_str())?;
    }
    Ok(text)
}

fn closed_text(alloc: Global, problem: &Problem) -> Result<String, AllocError> {
    match closure(alloc, problem) {
        Ok(closure) => names_text(alloc, &closure),
        Err(ClosureFault::TooManyPackages) => String::from_str(alloc, "too many"),
        Err(ClosureFault::OutOfMemory) => Err(AllocError),
    }
}

fn closed(alloc: Global, problem: Problem) -> Result<String, AllocError> {
    let text = closed_text(alloc, &problem);
    drop(problem);
    text
}

fn assembled_text(
    alloc: Global,
    recipes: List<Recipe>,
    site: Site,
    roots: List<Spec>,
    what: &str,
) -> Result<String, AllocError>
    requires order { AreInOrder recipes }
    requires right { list_all is_right_recipe recipes ≡ true }
    requires named { list_all (λ spec. is_some spec.top.name) roots ≡ true }
{
    let Site { settings, database } = site;
    match assemble(alloc, recipes, settings, database, roots) {
        Ok(problem) if what == "closure" => closed(alloc, problem),
        Ok(problem) => demanded(alloc, problem),
        Err(fault) => fault_text(alloc, fault),
    }
}

fn are_named(roots: &[Spec]) -> bool
    ensures { result ≡ list_all (λ spec. is_some spec.top.name) roots.now }
{
    roots.iter().all(|spec| spec.top.name.is_some())
}

/// The demands, or the names of the closure, where specs are requested of these recipes at a site,
/// or why they are refused.
pub(crate) fn problem_text(
    alloc: Global,
    recipes: List<Recipe>,
    site: Site,
    what: &str,
    texts: &str,
) -> Result<String, AllocError>
    requires order { AreInOrder recipes }
    requires right { list_all is_right_recipe recipes ≡ true }
{
    match read_specs(alloc, texts) {
        Ok(roots) if are_named(roots.as_slice()) => {
            assembled_text(alloc, recipes, site, roots, what)
        }
        Err(SpecFault::OutOfMemory) => Err(AllocError),
        _ => String::from_str(alloc, "no specs"),
    }
}
