//! A table of targets.
ghost use Rattle.std.specs.Prelude.{◌≡◌, IfOk, IfErr, OnOk};
ghost use Rattle.std.specs.Option.{option_copied};
ghost use Rattle.reachability.specs.Places.{IsKeyTable};
ghost use Rattle.reachability.specs.TextPlaces.{ArePlaces};
ghost use Rattle.target_table.specs.Targets.{IsTargetFault, AreTargets, names_of, parent_arcs};
ghost use Rattle.target_table.specs.Targets.{place_of, has_ancestor, is_at_least, keeps_end, in_range};

use crate::arcs::numbered;
use crate::places::{place_in, places_of};
use crate::{TargetEntry, TargetFault};
use plain_data::List;
use reachability::PathTable;
use std::alloc::{AllocError, Global};
use std::collections::BTreeMap;
use std::marker::Model;

/// Targets in order of preference, seen as the list of entries.
#[derive(Debug, Drop)]
pub struct TargetTable {
    entries: List<TargetEntry>,
    /// The place of each name.
    places: BTreeMap<String, usize>,
    /// From which place steps to parents lead to which.
    ancestors: PathTable,
}

impl Model for TargetTable {
    ghost use Rattle.std.specs.Prelude.{List};
    ghost use Rattle.target_table.specs.declared.entry.TargetEntry.{TargetEntry};
    ghost use Rattle.reachability.specs.TextPlaces.{ArePlaces};
    ghost use Rattle.reachability.specs.Places.{IsKeyTable};
    ghost use Rattle.target_table.specs.Targets.{AreTargets, names_of, parent_arcs};

    ghost Value = { List TargetEntry };

    ghost view = { λ table. table.entries };

    ghost invariant = { λ table. record { targets : AreTargets table.entries; places : ArePlaces (names_of table.entries) table.places; ancestors : IsKeyTable (names_of table.entries) (parent_arcs table.entries) table.ancestors } };
}

impl TargetTable {
    /// The table of some entries; takes them whatever it answers.
    ///
    /// It needs a search for each entry, and memory for a bit for each two entries in one
    /// allocation.
    pub fn new(alloc: Global, entries: List<TargetEntry>) -> Result<TargetTable, TargetFault>
        ensures table { IfOk result (λ table. table ≡ entries) }
        ensures targets { OnOk result (AreTargets entries) }
        ensures fault { IfErr result (IsTargetFault entries) }
    {
        let (places, ancestors) = tables_of(alloc, entries.as_slice())?;
        Ok(TargetTable {
            entries,
            places,
            ancestors,
        })
    }

    /// The entries, as they were given.
    pub fn entries(&self) -> &[TargetEntry]
        ensures entries { result.now ≡ self.now }
        ensures targets { AreTargets self.now }
    {
        self.entries.as_slice()
    }

    /// The place of a target in the order of preference.
    pub fn place(&self, target: &str) -> Option<u64>
        ensures { result ≡ place_of self.now target.now }
    {
        match place_in(&self.places, target) {
            Some(place) => Some(place as u64),
            None => None,
        }
    }

    /// Whether a target is another or has it as an ancestor.
    pub fn at_least(&self, target: &str, low: &str) -> bool
        ensures { result ≡ is_at_least self.now target.now low.now }
    {
        target == low || self.is_above(target, low)
    }

    /// Whether a target lies between two, each of which may be left out.
    pub fn in_range(&self, target: &str, low: Option<&str>, high: Option<&str>) -> bool
        ensures { result ≡ in_range self.now target.now (option_copied low.entry)
            (option_copied high.entry) }
    {
        self.keeps_low(target, low) && self.keeps_high(target, high)
    }

    fn keeps_low(&self, target: &str, low: Option<&str>) -> bool
        ensures { result ≡ keeps_end (is_at_least self.now target.now) (option_copied low.entry) }
    {
        match low {
            Some(low) => self.at_least(target, low),
            None => true,
        }
    }

    fn keeps_high(&self, target: &str, high: Option<&str>) -> bool
        ensures { result ≡ keeps_end (λ h. is_at_least self.now h target.now)
            (option_copied high.entry) }
    {
        match high {
            Some(high) => self.at_least(high, target),
            None => true,
        }
    }

    // Whether a target has another as an ancestor.
    fn is_above(&self, target: &str, low: &str) -> bool
        ensures { result ≡ has_ancestor self.now target.now low.now }
    {
        let Some(from) = place_in(&self.places, target) else {
            return false;
        };
        let Some(to) = place_in(&self.places, low) else {
            return false;
        };
        self.ancestors.leads(from, to)
    }
}

// The places of the names, and the ancestors of each.
fn tables_of(
    alloc: Global,
    entries: &[TargetEntry],
) -> Result<(BTreeMap<String, usize>, PathTable), TargetFault>
    ensures places { IfOk result (λ tables. ArePlaces (names_of entries.now) tables.0) }
    ensures ancestors { IfOk result
        (λ tables. IsKeyTable (names_of entries.now) (parent_arcs entries.now) tables.1) }
    ensures targets { OnOk result (AreTargets entries.now) }
    ensures fault { IfErr result (IsTargetFault entries.now) }
{
    let places = places_of(alloc, entries)?;
    let arcs = numbered(alloc, entries, &places)?;
    let ancestors = PathTable::new(alloc, entries.len(), arcs.as_slice())?;
    if ancestors.has_cycle() {
        return Err(TargetFault::CyclicTargets);
    }
    Ok((places, ancestors))
}
