//! Declared versions found by their texts.
ghost use Rattle.std.specs.Prelude.{◌≡◌, ◌&&◌, IfOk};
ghost use Rattle.std.specs.List.{list_any};
ghost use Rattle.std.specs.Str.{bytes_eq};
ghost use Rattle.keyed_lists.specs.Lent.{IsIndexOf};
ghost use Rattle.cost_vector.specs.Ranks.{weight_among};

use crate::ranks::{Ranked, place_in, sorted};
use keyed_lists::TextIndex;
use recipe_data::VersionRow;
use std::alloc::{AllocError, Global};
use std::marker::Model;

// ---- ranks

fn ranked_by_version<'a>(
    alloc: Global,
    ranked: &'a [Ranked<'a>],
) -> Result<TextIndex<'a, Ranked<'a>>, AllocError>
    ensures { IfOk result (IsIndexOf (λ r. r.row.version) ranked.now) }
{
    let mut entries = Vec::new(alloc);
    for one in ranked {
        entries.push((one.row().version.text(), one))?;
    }
    TextIndex::new(entries)
}

/// Ranks that are sorted and found by their versions, seen as the list of them.
#[derive(Drop)]
pub(crate) struct RankTable<'a> {
    ranked: &'a [Ranked<'a>],
    sorted: Vec<Ranked<'a>>,
    index: TextIndex<'a, Ranked<'a>>,
}

impl<'a> Model for RankTable<'a> {
    ghost use Rattle.std.specs.Prelude.{List};
    ghost use Rattle.std.specs.List.Sorted.{IsPermutation, IsSortedBy};
    ghost use Rattle.std.specs.Ordering.{is_lt};
    ghost use Rattle.keyed_lists.specs.Lent.{IsIndexOf};
    ghost use Rattle.cost_vector.specs.Ranks.{Rank, rank_cmp};

    ghost Value = { List Rank };

    ghost view = { λ table. table.ranked.now };

    ghost invariant = { λ table. record { permutation : IsPermutation table.ranked.now table.sorted.items; sorted : IsSortedBy (λ a b. is_lt (rank_cmp a b)) table.sorted.items; index : IsIndexOf (λ r. r.row.version) table.ranked.now table.index } };
}

impl<'a> RankTable<'a> {
    /// Takes n log n comparisons for n ranks.
    pub(crate) fn new(alloc: Global, ranked: &'a [Ranked<'a>]) -> Result<RankTable<'a>, AllocError>
        ensures { IfOk result (λ table. table ≡ ranked.now) }
    {
        let sorted = sorted(alloc, ranked)?;
        let index = ranked_by_version(alloc, ranked)?;
        Ok(RankTable {
            ranked,
            sorted,
            index,
        })
    }

    /// The weight of a version among the ranks, by binary searches.
    pub(crate) fn weight(&self, version: &str) -> usize
        ensures { result ≡ weight_among self.now version.now }
    {
        match self.index.of(version) {
            [] => self.ranked.len(),
            [first, ..] => place_in(self.sorted.as_slice(), first.1),
        }
    }
}

// ---- rows

/// The rows of a package by their versions. Takes n log n comparisons for n rows.
pub(crate) fn rows_by_version<'a>(
    alloc: Global,
    rows: &'a [VersionRow],
) -> Result<TextIndex<'a, VersionRow>, AllocError>
    ensures { IfOk result (IsIndexOf (λ row. row.version) rows.now) }
{
    let mut entries = Vec::new(alloc);
    for row in rows {
        entries.push((row.version.text(), row))?;
    }
    TextIndex::new(entries)
}
