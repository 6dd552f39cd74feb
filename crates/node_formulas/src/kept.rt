// The rule of kept nodes, origin by origin.
ghost use Rattle.std.specs.Prelude.{◌≡◌, ◌||◌, ◌++◌, map, filter, is_none, IfOk, OnOk};
ghost use Rattle.clause_formulas.specs.Rules.{fact, isnt};
ghost use Rattle.graph_core.specs.declared.node.Origin.TheVariants.{External, Installed};
ghost use Rattle.problem.specs.Records.{kept_dependencies};
ghost use Rattle.graph_formulas.specs.Facts.{has_edge, has_prefix};
ghost use Rattle.graph_formulas.specs.Lists.{each_keeps};
ghost use Rattle.graph_core.specs.Graphs.{no_kinds};
ghost use Rattle.graph_formulas.specs.Kept.{origin_rule};
ghost use Rattle.node_formulas.specs.Rows.{only_if};
ghost use Rattle.graph_formulas.specs.Kept.{joined_rule};
ghost use Rattle.node_formulas.specs.Attributes.{dependency_rule, edge_rule, record_rule};
ghost use Rattle.word_formulas.specs.Builders.{node_said, plain_said};

use crate::attributes::same_record;
use crate::children::{is_child_name, is_kept, record_at};
use crate::externals::listed_external;
use crate::kinds::{kinds_formula, no_kinds, only_recorded};
use crate::origins::installs;
use crate::provided::{provided_formula, recorded_edge};
use clause_formulas::Formula;
use graph_core::Origin;
use literal_table::LiteralTable;
use plain_data::Word;
use problem::Problem;
use reuse_db::{Dependency, Record};
use spec_hash::Hash;
use std::alloc::{AllocError, Global};
use word_formulas::{Scribe, each};

// ---- installed nodes

// The child is there as the installed node of that hash, with its edge.
fn installed_child(
    alloc: Global,
    table: &LiteralTable,
    name: &str,
    child: &str,
    dependency: &Dependency,
) -> Result<Formula, AllocError>
    ensures { IfOk result (λ formula. formula
        ≡ plain_said table.now (joined_rule name.now child.now dependency.now)) }
{
    let hash = &dependency.hash;
    let installed = Scribe { alloc, table }.origin_passes(child, |origin| installs(hash, origin))?;
    let recorded = recorded_edge(alloc, table, name, child, dependency)?;
    let joined = Formula::both(alloc, installed, recorded)?;
    let provided = provided_formula(alloc, table, child, dependency.virtuals.values())?;
    Formula::both(alloc, joined, provided)
}

/// The record of the hash is there as a child, and there is such a record.
fn child_formula(
    alloc: Global,
    problem: &Problem,
    table: &LiteralTable,
    name: &str,
    dependency: &Dependency,
) -> Result<Formula, AllocError>
    ensures { IfOk result (λ formula. formula
        ≡ plain_said table.now (dependency_rule problem.now name.now dependency.now)) }
{
    match record_at(problem, &dependency.hash) {
        Some(child) => installed_child(alloc, table, name, child.name.as_str(), dependency),
        None => Ok(Scribe { alloc, table }.given(false)),
    }
}

/// What a dependency asks, where it is kept.
fn push_dependency(
    alloc: Global,
    parts: &mut Vec<Formula>,
    problem: &Problem,
    table: &LiteralTable,
    name: &str,
    dependency: &Dependency,
) -> Result<(), AllocError>
    ensures { OnOk result (parts.new.items ≡ parts.old.items
        ++ only_if (dependency.now.kinds.link || dependency.now.kinds.run)
        (plain_said table.now (dependency_rule problem.now name.now dependency.now))) }
{
    if !is_kept(dependency.kinds) {
        return Ok(());
    }
    parts.push(child_formula(alloc, problem, table, name, dependency)?)?;
    Ok(())
}

/// What each dependency asks that is kept.
fn dependency_parts(
    alloc: Global,
    problem: &Problem,
    table: &LiteralTable,
    name: &str,
    dependencies: &[Dependency],
) -> Result<Vec<Formula>, AllocError>
    ensures { IfOk result (λ parts. parts.items
        ≡ map (λ d. plain_said table.now (dependency_rule problem.now name.now d))
        (filter (λ d. d.kinds.link || d.kinds.run) dependencies.now)) }
{
    let mut parts = Vec::new(alloc);
    for dependency in dependencies {
        push_dependency(alloc, &mut parts, problem, table, name, dependency)?;
    }
    Ok(parts)
}

fn dependencies_formula(
    alloc: Global,
    problem: &Problem,
    table: &LiteralTable,
    name: &str,
    entry: &Record,
) -> Result<Formula, AllocError>
    ensures { IfOk result (λ formula. formula ≡ plain_said table.now
        (each_keeps (dependency_rule problem.now name.now) (kept_dependencies entry.now))) }
{
    let dependencies = entry.dependencies.as_slice();
    let parts = dependency_parts(alloc, problem, table, name, dependencies)?;
    Formula::all(alloc, parts)
}

// An edge goes to a child of the record.
fn recorded_formula(
    alloc: Global,
    problem: &Problem,
    table: &LiteralTable,
    name: &str,
    entry: &Record,
    child: &Word,
) -> Result<Formula, AllocError>
    ensures { IfOk result (λ formula. formula ≡ plain_said table.now
        (edge_rule problem.now name.now entry.now child.now)) }
{
    let child = child.as_str();
    let recorded = is_child_name(problem, entry, child);
    only_recorded(alloc, table, name, child, &no_kinds(), recorded)
}

fn recorded_edges(
    alloc: Global,
    problem: &Problem,
    table: &LiteralTable,
    children: &[Word],
    name: &str,
    entry: &Record,
) -> Result<Formula, AllocError>
    ensures { IfOk result (λ formula. formula ≡ plain_said table.now
        (each_keeps (edge_rule problem.now name.now entry.now) children.now)) }
{
    each(alloc, children, |child| {
        recorded_formula(alloc, problem, table, name, entry, child)
    })
}

/// The node is that of the record, with its dependencies and no other edge.
fn record_formula(
    alloc: Global,
    problem: &Problem,
    table: &LiteralTable,
    children: &[Word],
    name: &str,
    entry: &Record,
) -> Result<Formula, AllocError>
    ensures { IfOk result (λ formula. formula ≡ plain_said table.now
        (record_rule problem.now children.now name.now entry.now)) }
{
    let same = same_record(alloc, table, name, entry)?;
    let dependencies = dependencies_formula(alloc, problem, table, name, entry)?;
    let first = Formula::both(alloc, same, dependencies)?;
    let edges = recorded_edges(alloc, problem, table, children, name, entry)?;
    Formula::both(alloc, first, edges)
}

fn installed_formula(
    alloc: Global,
    problem: &Problem,
    table: &LiteralTable,
    children: &[Word],
    name: &Word,
    hash: &Hash,
) -> Result<Formula, AllocError>
    ensures { IfOk result (λ formula. formula ≡ plain_said table.now
        (origin_rule problem.now children.now name.now (Installed hash.now))) }
{
    match record_at(problem, hash) {
        Some(entry) => record_formula(alloc, problem, table, children, name.as_str(), entry),
        None => Ok(Scribe { alloc, table }.given(false)),
    }
}

// ---- externals

fn no_edge(
    alloc: Global,
    table: &LiteralTable,
    name: &str,
    child: &Word,
) -> Result<Formula, AllocError>
    ensures { IfOk result (λ formula. formula
        ≡ plain_said table.now (isnt (fact (has_edge name.now child.now no_kinds)))) }
{
    let edge = Scribe { alloc, table }.has_edge(name, child.as_str(), &no_kinds())?;
    Ok(edge.negated())
}

fn no_edges(
    alloc: Global,
    table: &LiteralTable,
    children: &[Word],
    name: &str,
) -> Result<Formula, AllocError>
    ensures { IfOk result (λ formula. formula ≡ plain_said table.now
        (each_keeps (λ child. isnt (fact (has_edge name.now child no_kinds))) children.now)) }
{
    each(alloc, children, |child| no_edge(alloc, table, name, child))
}

/// The node is that of the external, and no edge leaves it.
fn external_formula(
    alloc: Global,
    problem: &Problem,
    table: &LiteralTable,
    children: &[Word],
    name: &Word,
    place: u64,
) -> Result<Formula, AllocError>
    ensures { IfOk result (λ formula. formula ≡ plain_said table.now
        (origin_rule problem.now children.now name.now (External place))) }
{
    let listed = listed_external(alloc, problem, table, name, place)?;
    let alone = no_edges(alloc, table, children, name.as_str())?;
    Formula::both(alloc, listed, alone)
}

// ---- all

fn no_prefix(alloc: Global, table: &LiteralTable, name: &str) -> Result<Formula, AllocError>
    ensures { IfOk result (λ formula. formula ≡ node_said table.now name.now (has_prefix is_none)) }
{
    Scribe { alloc, table }.prefix_passes(name, |prefix| prefix.is_none())
}

/// What an origin asks of the node of the name, to whose children edges may go.
pub(crate) fn origin_formula(
    alloc: Global,
    problem: &Problem,
    table: &LiteralTable,
    children: &[Word],
    name: &Word,
    origin: &Origin,
) -> Result<Formula, AllocError>
    ensures { IfOk result (λ formula. formula ≡ plain_said table.now
        (origin_rule problem.now children.now name.now origin.now)) }
{
    match origin {
        Origin::Built => no_prefix(alloc, table, name.as_str()),
        Origin::External(place) => {
            external_formula(alloc, problem, table, children, name, *place)
        }
        Origin::Installed(hash) => {
            installed_formula(alloc, problem, table, children, name, hash)
        }
    }
}
