//! The weights of all versions that may be chosen for a package.
ghost use Rattle.std.specs.Prelude.{◌≡◌, map, IfOk, if◌then◌else◌};
ghost use Rattle.std.specs.List.{list_any};
ghost use Rattle.graph_rules.specs.Weights.{version_weight, is_deprecated};
ghost use Rattle.keyed_lists.specs.Lent.{with_text};
ghost use Rattle.cost_vector.specs.Ranks.{weight_among};

use crate::indexes::{RankTable, rows_by_version};
use crate::ranks::ranked_rows;
use crate::versions::listed_in;
use keyed_lists::TextIndex;
use problem::{Problem, entry_of, versions_at};
use recipe_data::VersionRow;
use std::alloc::{AllocError, Global};
use version_order::Version;

// ---- places in the sort

/// Each choice with its weight.
fn weigh<L: Copy>(
    alloc: Global,
    table: &RankTable,
    choices: &[(Version, L)],
) -> Result<Vec<(u64, L)>, AllocError>
    ensures { IfOk result (λ weights. weights.items
        ≡ map (λ c. (weight_among table.now c.0, c.1)) choices.now) }
{
    let mut weights = Vec::new(alloc);
    for choice in choices {
        let weight = table.weight(choice.0.text());
        weights.push((weight as u64, choice.1))?;
    }
    Ok(weights)
}

/// The weight of each version of a package, with what stands beside it.
///
/// Takes n log n comparisons for n declared versions and choices, and tests each declared version
/// against the settings' lists once.
pub fn version_weights<L: Copy>(
    alloc: Global,
    problem: &Problem,
    name: &str,
    choices: &[(Version, L)],
) -> Result<Vec<(u64, L)>, AllocError>
    ensures { IfOk result (λ weights. weights.items
        ≡ map (λ c. (version_weight problem.now name.now c.0, c.1)) choices.now) }
{
    let lists = listed_in(entry_of(problem, name));
    let ranked = ranked_rows(alloc, lists, versions_at(problem, name))?;
    let table = RankTable::new(alloc, ranked.as_slice())?;
    weigh(alloc, &table, choices)
}

// ---- deprecation

fn some_deprecated(entries: &[(&str, &VersionRow)]) -> bool
    ensures { result ≡ list_any (λ e. e.1.now.deprecated) entries.now }
{
    entries.iter().any(|entry| entry.1.deprecated)
}

fn is_marked(index: &TextIndex<VersionRow>, version: &str) -> bool
    ensures { result ≡ list_any (λ e. e.1.deprecated) (with_text version.now index.now) }
{
    some_deprecated(index.of(version))
}

/// Each choice with one or zero: whether its version is declared as deprecated.
fn mark<L: Copy>(
    alloc: Global,
    index: &TextIndex<VersionRow>,
    choices: &[(Version, L)],
) -> Result<Vec<(u64, L)>, AllocError>
    ensures { IfOk result (λ weights. weights.items
        ≡ map (λ c.
        (if list_any (λ e. e.1.deprecated) (with_text c.0 index.now) then 1 else 0, c.1))
        choices.now) }
{
    let mut weights = Vec::new(alloc);
    for choice in choices {
        let weight = if is_marked(index, choice.0.text()) {
            1
        } else {
            0
        };
        weights.push((weight, choice.1))?;
    }
    Ok(weights)
}

/// One for each version of a package that is declared as deprecated and zero for each other, with
/// what stands beside it.
///
/// Takes n log n comparisons for n declared versions and choices.
pub fn deprecated_weights<L: Copy>(
    alloc: Global,
    problem: &Problem,
    name: &str,
    choices: &[(Version, L)],
) -> Result<Vec<(u64, L)>, AllocError>
    ensures { IfOk result (λ weights. weights.items
        ≡ map (λ c. (if is_deprecated problem.now name.now c.0 then 1 else 0, c.1)) choices.now) }
{
    let index = rows_by_version(alloc, versions_at(problem, name))?;
    mark(alloc, &index, choices)
}
