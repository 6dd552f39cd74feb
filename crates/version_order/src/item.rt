//! One item of a set of versions.

ghost use Rattle.std.specs.Prelude.{◌≡◌};
ghost use Rattle.std.specs.Option.{option_copied};
ghost use Rattle.version_order.specs.Items.{is_empty_range};
ghost use Rattle.version_order.specs.Sets.{low_end, high_end, item_contains, items_overlap};

use crate::Version;
use crate::ends::{high_allows, low_allows, reaches};
use plain_data::{Duplicate, Same};
use std::alloc::{AllocError, Global};

/// One item of a set of versions.
#[derive(Debug, Drop)]
pub enum Item {
    /// `=1.2`: this version alone.
    Exact(Version),
    /// `1.2`: the versions that have this one as a prefix.
    Prefix(Version),
    /// `1.2:1.4`: the versions from the low end to the high end, and those that have the high end as
    /// a prefix. An end that is not written asks nothing.
    Range(Option<Version>, Option<Version>),
}

impl Item {
    fn low_end(&self) -> Option<&Version>
        ensures { option_copied result ≡ low_end self.now }
    {
        match self {
            Item::Exact(version) | Item::Prefix(version) => Some(version),
            Item::Range(low, _) => low.as_ref(),
        }
    }

    fn high_end(&self) -> Option<&Version>
        ensures { option_copied result ≡ high_end self.now }
    {
        match self {
            Item::Exact(version) | Item::Prefix(version) => Some(version),
            Item::Range(_, high) => high.as_ref(),
        }
    }

    /// Whether this item contains a version.
    #[tactic(auto, unfolding(crate::specs::Sets::item_contains))]
    pub fn contains(&self, version: &Version) -> bool
        ensures { result ≡ item_contains self.now version.now }
    {
        match self {
            Item::Exact(exact) => exact.text() == version.text(),
            Item::Prefix(prefix) => prefix.is_prefix(version),
            Item::Range(low, high) => low_allows(low, version) && high_allows(high, version),
        }
    }

    /// Whether this item overlaps another.
    ///
    /// `=1.2` overlaps the items that contain `1.2`. Two other items overlap where the low end of
    /// each is not above the high end of the other, or has it as a prefix; `1.2` has the ends of
    /// `1.2:1.2`.
    #[tactic(auto, unfolding(crate::specs::Sets::items_overlap))]
    pub fn overlaps(&self, other: &Item) -> bool
        ensures { result ≡ items_overlap self.now other.now }
    {
        match (self, other) {
            (Item::Exact(version), _) => other.contains(version),
            (_, Item::Exact(version)) => self.contains(version),
            _ => {
                reaches(self.low_end(), other.high_end())
                    && reaches(other.low_end(), self.high_end())
            }
        }
    }

    /// Whether this item is a range that is empty.
    #[tactic(auto, unfolding(crate::specs::Items::is_empty_range))]
    pub(crate) fn is_empty_range(&self) -> bool
        ensures { result ≡ is_empty_range self.now }
    {
        match self {
            Item::Range(Some(low), Some(high)) => {
                low.compare(high).is_gt() && !high.is_prefix(low)
            }
            _ => false,
        }
    }
}

impl Duplicate for Item {
    fn duplicate(&self, alloc: Global) -> Result<Item, AllocError> {
        Ok(match self {
            Item::Exact(version) => Item::Exact(version.duplicate(alloc)?),
            Item::Prefix(version) => Item::Prefix(version.duplicate(alloc)?),
            Item::Range(low, high) => Item::Range(low.duplicate(alloc)?, high.duplicate(alloc)?),
        })
    }
}

impl Same for Item {
    fn same(&self, other: &Item) -> bool {
        match (self, other) {
            (Item::Exact(a), Item::Exact(b)) => a.same(b),
            (Item::Prefix(a), Item::Prefix(b)) => a.same(b),
            (Item::Range(a, b), Item::Range(c, d)) => a.same(c) && b.same(d),
            _ => false,
        }
    }
}
