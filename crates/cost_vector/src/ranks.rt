//! Declared versions in their sort.
ghost use Rattle.std.specs.Prelude.{◌≡◌, count_by, map, IfOk};
ghost use Rattle.std.specs.List.Sorted.{IsPermutation, IsSortedBy};
ghost use Rattle.std.specs.Ordering.{is_lt};
ghost use Rattle.graph_rules.specs.Weights.{preference};
ghost use Rattle.cost_vector.specs.Ranks.{rank, rank_cmp};

use recipe_data::VersionRow;
use std::alloc::{AllocError, Global};
use std::cmp::Ordering;
use std::marker::Model;
use version_order::{Version, VersionSet};

fn preference(lists: &[VersionSet], version: &Version) -> usize
    ensures { result ≡ preference lists.now version.now }
{
    lists
        .iter()
        .take_while(|set| !set.contains(version))
        .count()
}

/// A declared version with its place among the settings' lists.
#[derive(Drop)]
pub(crate) struct Ranked<'a> {
    preference: usize,
    row: &'a VersionRow,
}

impl<'a> Model for Ranked<'a> {
    ghost use Rattle.cost_vector.specs.Ranks.{Rank};

    ghost Value = { Rank };

    ghost view = { λ ranked. record { preference = ranked.preference; row = ranked.row.now } };
}

impl<'a> Ranked<'a> {
    pub(crate) fn new(lists: &[VersionSet], row: &'a VersionRow) -> Ranked<'a>
        ensures { result ≡ rank lists.now row.now }
    {
        Ranked {
            preference: preference(lists, &row.version),
            row,
        }
    }

    pub(crate) fn row(&self) -> &'a VersionRow
        ensures { result.now ≡ self.now.row }
    {
        self.row
    }

    /// The order of declared versions: preference of the settings, then of the recipe, not
    /// deprecated, no development version, and the greater version first.
    #[tactic(auto, unfolding(crate::specs::Ranks::rank_cmp))]
    pub(crate) fn compare(&self, other: &Ranked) -> Ordering
        ensures { result ≡ rank_cmp self.now other.now }
    {
        let a = self.row;
        let b = other.row;
        self.preference
            .cmp(&other.preference)
            .then(b.preferred.cmp(&a.preferred))
            .then(a.deprecated.cmp(&b.deprecated))
            .then(a.version.is_special().cmp(&b.version.is_special()))
            .then(b.version.compare(&a.version))
    }

    pub(crate) fn is_before(&self, other: &Ranked) -> bool
        ensures { result ≡ is_lt (rank_cmp self.now other.now) }
    {
        self.compare(other).is_lt()
    }
}

/// Each row with its place among the lists, in the order of the rows.
pub(crate) fn ranked_rows<'a>(
    alloc: Global,
    lists: &[VersionSet],
    rows: &'a [VersionRow],
) -> Result<Vec<Ranked<'a>>, AllocError>
    ensures { IfOk result (λ ranked. ranked.items ≡ map (rank lists.now) rows.now) }
{
    let mut ranked = Vec::new(alloc);
    for row in rows {
        ranked.push(Ranked::new(lists, row))?;
    }
    Ok(ranked)
}

/// The same ranks in a list that may be sorted.
fn copied<'a>(alloc: Global, ranked: &[Ranked<'a>]) -> Result<Vec<Ranked<'a>>, AllocError>
    ensures { IfOk result (λ copied. copied.items ≡ ranked.now) }
{
    let mut copied = Vec::new(alloc);
    for one in ranked {
        copied.push(Ranked {
            preference: one.preference,
            row: one.row,
        })?;
    }
    Ok(copied)
}

/// The same in their sort.
pub(crate) fn sorted<'a>(
    alloc: Global,
    ranked: &[Ranked<'a>],
) -> Result<Vec<Ranked<'a>>, AllocError>
    ensures permutation { IfOk result (λ sorted. IsPermutation ranked.now sorted.items) }
    ensures sorted { IfOk result (λ sorted. IsSortedBy (λ a b. is_lt (rank_cmp a b)) sorted.items) }
{
    let mut sorted = copied(alloc, ranked)?;
    sorted.sort_by(|a, b| a.compare(b))?;
    Ok(sorted)
}

/// How many of a sorted list come before this one.
pub(crate) fn place_in(sorted: &[Ranked], one: &Ranked) -> usize
    requires { IsSortedBy (λ a b. is_lt (rank_cmp a b)) sorted.now }
    ensures { result ≡ count_by (λ other. is_lt (rank_cmp other one.now)) sorted.now }
{
    sorted.partition_point(|other| other.is_before(one))
}
