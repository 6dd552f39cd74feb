// The names to which an edge from a name may go, and what a record has as children.
ghost use Rattle.std.specs.Prelude.{◌≡◌, ◌&&◌, ◌||◌, ◌++◌, map, filter, IfOk, OnOk};
ghost use Rattle.std.specs.List.{list_any};
ghost use Rattle.std.specs.Option.{option_copied};
ghost use Rattle.std.specs.Str.{bytes_eq};
ghost use Rattle.condition_rules.specs.Words.{is_some_and};
ghost use Rattle.problem.specs.Problems.{record_at};
ghost use Rattle.graph_formulas.specs.Kept.{is_child_name};
ghost use Rattle.graph_formulas.specs.Laws.{children_of};
ghost use Rattle.node_formulas.specs.Rows.{only_if};

use graph_core::Kinds;
use literal_table::{EdgeLits, LiteralTable};
use plain_data::{Duplicate, Word};
use problem::Problem;
use reuse_db::{Dependency, Record};
use spec_hash::Hash;
use std::alloc::{AllocError, Global};

/// The child of an edge that leaves the name.
fn push_child(
    alloc: Global,
    names: &mut Vec<Word>,
    edge: &EdgeLits,
    name: &str,
) -> Result<(), AllocError>
    ensures { OnOk result (names.new.items ≡ names.old.items
        ++ only_if (bytes_eq edge.now.parent name.now) edge.now.child) }
{
    if edge.parent.as_str() != name {
        return Ok(());
    }
    names.push(edge.child.duplicate(alloc)?)?;
    Ok(())
}

/// The children of the edges that leave the name.
fn children_in(alloc: Global, edges: &[EdgeLits], name: &str) -> Result<Vec<Word>, AllocError>
    ensures { IfOk result (λ names. names.items
        ≡ map (λ e. e.child) (filter (λ e. bytes_eq e.parent name.now) edges.now)) }
{
    let mut names = Vec::new(alloc);
    for edge in edges {
        push_child(alloc, &mut names, edge, name)?;
    }
    Ok(names)
}

/// The names to which an edge from a name may go.
pub(crate) fn children_of(
    alloc: Global,
    table: &LiteralTable,
    name: &str,
) -> Result<Vec<Word>, AllocError>
    ensures { IfOk result (λ names. names.items ≡ children_of table.now name.now) }
{
    children_in(alloc, table.edges(), name)
}

/// The record of a hash.
#[tactic(auto, unfolding(problem::specs::Problems::record_at))]
pub(crate) fn record_at<'a>(problem: &'a Problem, hash: &Hash) -> Option<&'a Record>
    ensures { option_copied result ≡ record_at problem.now hash.now }
{
    problem.database().find(hash)
}

/// Whether the kinds have one that is kept.
pub(crate) fn is_kept(kinds: Kinds) -> bool
    ensures { result ≡ (kinds.link || kinds.run) }
{
    kinds.link || kinds.run
}

fn is_named(problem: &Problem, hash: &Hash, name: &str) -> bool
    ensures { result ≡ is_some_and (record_at problem.now hash.now)
        (λ child. bytes_eq child.name name.now) }
{
    match record_at(problem, hash) {
        Some(child) => child.name.as_str() == name,
        None => false,
    }
}

/// A dependency that is kept is a record of this name.
fn some_named(problem: &Problem, dependencies: &[Dependency], name: &str) -> bool
    ensures { result ≡ list_any (λ d. (d.kinds.link || d.kinds.run)
        && is_some_and (record_at problem.now d.hash) (λ child. bytes_eq child.name name.now))
        dependencies.now }
{
    dependencies
        .iter()
        .any(|d| is_kept(d.kinds) && is_named(problem, &d.hash, name))
}

/// Whether the record has a child of this name.
pub(crate) fn is_child_name(problem: &Problem, entry: &Record, name: &str) -> bool
    ensures { result ≡ is_child_name problem.now entry.now name.now }
{
    some_named(problem, entry.dependencies.as_slice(), name)
}
