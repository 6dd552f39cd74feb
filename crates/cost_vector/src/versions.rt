//! The weight of one version.
ghost use Rattle.std.specs.Prelude.{◌≡◌, ◌&&◌, find};
ghost use Rattle.std.specs.List.{list_any};
ghost use Rattle.std.specs.Option.{option_copied};
ghost use Rattle.std.specs.Ordering.{is_lt};
ghost use Rattle.std.specs.Str.{bytes_eq};
ghost use Rattle.graph_rules.specs.Weights.{listed_in, place_of, place_or_number, version_weight};
ghost use Rattle.graph_rules.specs.Weights.{is_deprecated};
ghost use Rattle.cost_vector.specs.Ranks.{rank, rank_cmp};

use crate::ranks::Ranked;
use problem::{Problem, entry_of, versions_at};
use recipe_data::VersionRow;
use site_settings::PackageEntry;
use version_order::VersionSet;

/// The lists of versions in the settings of a package, the one to prefer first.
pub(crate) fn listed_in(entry: Option<&PackageEntry>) -> &[VersionSet]
    ensures { result.now ≡ listed_in (option_copied entry.entry) }
{
    match entry {
        Some(entry) => entry.versions.as_slice(),
        None => &[],
    }
}

fn is_before(lists: &[VersionSet], row: &VersionRow, one: &Ranked) -> bool
    ensures { result ≡ is_lt (rank_cmp (rank lists.now row.now) one.now) }
{
    Ranked::new(lists, row).is_before(one)
}

#[tactic(auto, unfolding(graph_rules::specs::Weights::row_cmp, crate::specs::Ranks::rank_cmp))]
fn place_of(lists: &[VersionSet], rows: &[VersionRow], row: &VersionRow) -> usize
    ensures { result ≡ place_of lists.now rows.now row.now }
{
    let one = Ranked::new(lists, row);
    rows.iter()
        .filter(|other| is_before(lists, other, &one))
        .count()
}

fn declared<'a>(rows: &'a [VersionRow], version: &str) -> Option<&'a VersionRow>
    ensures { option_copied result ≡ find (λ row. bytes_eq row.version version.now) rows.now }
{
    rows.iter().find(|row| row.version.text() == version)
}

fn place_or_number(lists: &[VersionSet], rows: &[VersionRow], row: Option<&VersionRow>) -> usize
    ensures { result ≡ place_or_number lists.now rows.now (option_copied row.entry) }
{
    match row {
        Some(row) => place_of(lists, rows, row),
        None => rows.len(),
    }
}

/// The place of the version's row in the sort of the declared versions, or their number.
///
/// Tests each declared version against the settings' lists once; `version_weights` does so for all
/// versions together.
#[tactic(auto, unfolding(graph_rules::specs::Weights::version_weight))]
pub fn version_weight(problem: &Problem, name: &str, version: &str) -> usize
    ensures { result ≡ version_weight problem.now name.now version.now }
{
    let rows = versions_at(problem, name);
    let lists = listed_in(entry_of(problem, name));
    place_or_number(lists, rows, declared(rows, version))
}

fn some_deprecated(rows: &[VersionRow], version: &str) -> bool
    ensures { result ≡ list_any (λ row. bytes_eq row.version version.now
        && row.deprecated) rows.now }
{
    rows.iter()
        .any(|row| row.version.text() == version && row.deprecated)
}

/// Whether the version is declared as deprecated.
#[tactic(auto, unfolding(graph_rules::specs::Weights::is_deprecated))]
pub fn is_deprecated(problem: &Problem, name: &str, version: &str) -> bool
    ensures { result ≡ is_deprecated problem.now name.now version.now }
{
    some_deprecated(versions_at(problem, name), version)
}
