//! Looking up in a problem.
ghost use Rattle.std.specs.Prelude.{◌≡◌, IfOk, map};
ghost use Rattle.std.specs.Option.{option_copied};
ghost use Rattle.problem.specs.Nodes.{covers};
ghost use Rattle.problem.specs.Problems.{recipe_at, versions_at, variants_at, depends_at};
ghost use Rattle.problem.specs.Problems.{conflicts_at, requirements_at, package_entry_of, is_buildable_in};
ghost use Rattle.problem.specs.Problems.{same_compiler, applies, asked_by, provides_at};

use crate::{Explored, Problem};
use condition_rules::{Paths, all_hold, asked_node};
use graph_core::{Compiler, Kinds, Node};
use plain_data::{Duplicate, Word};
use recipe_data::{
    Condition, ConflictRow, DependRow, ProvideRow, Recipe, RequireRow, VariantRow, VersionRow,
};
use site_settings::PackageEntry;
use std::alloc::{AllocError, Global};
use variant_values::ValueSet;

/// The recipe of a package.
pub fn recipe_at<'a>(problem: &'a Problem, name: &str) -> Option<&'a Recipe>
    ensures { option_copied result ≡ recipe_at problem.now name.now }
{
    let world = problem.world();
    world.recipe(name)
}

/// The declared versions of a package.
pub fn versions_at<'a>(problem: &'a Problem, name: &str) -> &'a [VersionRow]
    ensures { result.now ≡ versions_at problem.now name.now }
{
    match recipe_at(problem, name) {
        Some(recipe) => recipe.versions.as_slice(),
        None => &[],
    }
}

/// The definitions of variants of a package.
pub fn variants_at<'a>(problem: &'a Problem, name: &str) -> &'a [VariantRow]
    ensures { result.now ≡ variants_at problem.now name.now }
{
    match recipe_at(problem, name) {
        Some(recipe) => recipe.variants.as_slice(),
        None => &[],
    }
}

/// The `depends_on` of a package.
pub fn depends_at<'a>(problem: &'a Problem, name: &str) -> &'a [DependRow]
    ensures { result.now ≡ depends_at problem.now name.now }
{
    match recipe_at(problem, name) {
        Some(recipe) => recipe.depends.as_slice(),
        None => &[],
    }
}

/// The `provides` of a package, a row for each name.
pub fn provides_at<'a>(problem: &'a Problem, name: &str) -> &'a [ProvideRow]
    ensures { result.now ≡ provides_at problem.now name.now }
{
    match recipe_at(problem, name) {
        Some(recipe) => recipe.provides.as_slice(),
        None => &[],
    }
}

/// The `conflicts` of a package.
pub fn conflicts_at<'a>(problem: &'a Problem, name: &str) -> &'a [ConflictRow]
    ensures { result.now ≡ conflicts_at problem.now name.now }
{
    match recipe_at(problem, name) {
        Some(recipe) => recipe.conflicts.as_slice(),
        None => &[],
    }
}

/// The `requires` of a package.
pub fn requirements_at<'a>(problem: &'a Problem, name: &str) -> &'a [RequireRow]
    ensures { result.now ≡ requirements_at problem.now name.now }
{
    match recipe_at(problem, name) {
        Some(recipe) => recipe.requirements.as_slice(),
        None => &[],
    }
}

/// What the settings say of a package.
#[tactic(auto, unfolding(crate::specs::Problems::package_entry_of))]
pub fn entry_of<'a>(problem: &'a Problem, name: &str) -> Option<&'a PackageEntry>
    ensures { option_copied result ≡ package_entry_of problem.now name.now }
{
    let settings = problem.settings();
    settings
        .packages
        .as_slice()
        .iter()
        .find(|entry| entry.name.as_str() == name)
}

/// Whether the settings let a package be built.
pub fn is_buildable(problem: &Problem, name: &str) -> bool
    ensures { result ≡ is_buildable_in (package_entry_of problem.now name.now) }
{
    match entry_of(problem, name) {
        Some(entry) => entry.buildable,
        None => true,
    }
}

/// Whether two compilers have one name and one version.
pub fn same_compiler(a: &Compiler, b: &Compiler) -> bool
    ensures { result ≡ same_compiler a.now b.now }
{
    a.name.as_str() == b.name.as_str() && a.version.text() == b.version.text()
}

/// Whether a directive's condition holds at a node.
pub fn applies(
    alloc: Global,
    problem: &Problem,
    graph: &Explored,
    when: &Condition,
    node: &Node,
) -> Result<bool, AllocError>
    ensures { IfOk result (λ answer. answer ≡ applies problem.now graph.now when.now node.now) }
{
    let world = problem.world();
    all_hold(alloc, &world, when, graph, node.name.as_str())
}

/// The node that a `depends_on` asks for.
pub fn asked_by<'a>(problem: &Problem, graph: &'a Explored, row: &DependRow) -> Option<&'a Node>
    ensures { option_copied result ≡ asked_by problem.now graph.now row.now }
{
    let world = problem.world();
    match &row.part.name {
        Some(name) => asked_node(&world, graph.graph(), name.as_str()),
        None => None,
    }
}

/// Whether an edge with these kinds has all that are wanted.
pub fn covers(kinds: Kinds, wanted: Kinds) -> bool
    ensures { result ≡ covers kinds wanted }
{
    (!wanted.build || kinds.build) && (!wanted.link || kinds.link) && (!wanted.run || kinds.run)
}

/// The names of variants.
pub fn names_of(alloc: Global, variants: &[(Word, ValueSet)]) -> Result<Vec<Word>, AllocError>
    ensures { IfOk result (λ names. names.items ≡ map (λ v. v.0) variants.now) }
{
    let mut names = Vec::new(alloc);
    for variant in variants {
        names.push(variant.0.duplicate(alloc)?)?;
    }
    Ok(names)
}
