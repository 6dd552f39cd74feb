//! Sets of versions.

ghost use Rattle.std.specs.Prelude.{◌≡◌, ◌++◌, IfOk, IfErr, IfSome, IfNone, Some, None, OnOk, OnErr};
ghost use Rattle.version_order.specs.Items.{AreOfSet, Reads, spelling, first_empty};
ghost use Rattle.version_order.specs.Sets.{set_contains, overlaps_item, sets_overlap, single_of};
ghost use Rattle.version_order.specs.Faults.{IsSetFault};

use crate::read_set::read_items;
use crate::write_set::write_items;
use crate::{Item, Version, VersionSetFault};
use plain_data::{Duplicate, List, Same};
use std::alloc::{AllocError, Global};
use std::marker::Model;

/// A set of versions, seen as the list of its items.
///
/// Its text is one item, or more with commas between: `1.2:1.4,=1.6.1,2`. No item of it is an empty
/// range.
#[derive(Debug, Drop)]
pub struct VersionSet {
    items: List<Item>,
}

impl Model for VersionSet {
    ghost use Rattle.std.specs.Prelude.{List};
    ghost use Rattle.version_order.specs.Items.{AreOfSet};
    ghost use Rattle.version_order.specs.declared.item.Item.{Item};

    ghost Value = { List Item };

    ghost view = { λ set. set.items };

    ghost invariant = { λ set. AreOfSet set.items };
}

impl VersionSet {
    /// The set that a text writes, as `1.2:1.4,=1.6.1`.
    ///
    /// # Errors
    ///
    /// `Empty` for the empty text, `BadByte` for any other text that is not of the right form,
    /// `EmptyRange` for one of the right form with a range such as `2:1`, and `OutOfMemory`, the only
    /// one for any other text.
    pub fn read(alloc: Global, text: &str) -> Result<VersionSet, VersionSetFault>
        ensures found { IfOk result (λ set. Reads text.now set × (first_empty 0 set ≡ None)) }
        ensures fault { IfErr result (λ fault. IsSetFault text.now fault) }
    {
        VersionSet::from_bytes(alloc, text.as_bytes())
    }

    /// The set that the bytes of a text write.
    ///
    /// # Errors
    ///
    /// Those of `read`.
    pub fn from_bytes(alloc: Global, bytes: &[u8]) -> Result<VersionSet, VersionSetFault>
        ensures found { IfOk result (λ set. Reads bytes.now set × (first_empty 0 set ≡ None)) }
        ensures fault { IfErr result (λ fault. IsSetFault bytes.now fault) }
    {
        let items = read_items(alloc, bytes)?;
        Ok(VersionSet { items })
    }

    /// Appends the set's text: what `read` reads again as the same items.
    ///
    /// # Errors
    ///
    /// Where there is no memory; `out` is then as it was.
    pub fn write(&self, out: &mut Vec<u8>) -> Result<(), AllocError>
        ensures written { OnOk result (out.new.items ≡ out.old.items ++ spelling self.now) }
        ensures right { Reads (spelling self.now) self.now }
        ensures unchanged { OnErr result (out.new.items ≡ out.old.items) }
    {
        let start = out.len();
        let written = write_items(self.items(), out);
        if written.is_err() {
            out.truncate(start);
        }
        written
    }

    /// The items, in the order of the text.
    pub fn items(&self) -> &[Item]
        ensures items { result.now ≡ self.now }
        ensures right { AreOfSet self.now }
    {
        self.items.as_slice()
    }

    /// Whether an item of this set contains a version.
    pub fn contains(&self, version: &Version) -> bool
        ensures { result ≡ set_contains self.now version.now }
    {
        self.items().iter().any(|item| item.contains(version))
    }

    /// Whether an item of this set overlaps an item of the other.
    ///
    /// That is not to have a version in common: `1.0` and `:1.0-alpha2` both contain `1.0-alpha2`, and
    /// do not overlap.
    pub fn overlaps(&self, other: &VersionSet) -> bool
        ensures { result ≡ sets_overlap self.now other.now }
    {
        self.items().iter().any(|item| other.overlaps_item(item))
    }

    /// Whether an item of this set is overlapped by the item.
    fn overlaps_item(&self, item: &Item) -> bool
        ensures { result ≡ overlaps_item self.now item.now }
    {
        self.items().iter().any(|other| item.overlaps(other))
    }

    /// The version of a set that is the one item `1.2` or `=1.2`.
    pub fn single(&self) -> Option<&Version>
        ensures some { IfSome result (λ version. single_of self.now ≡ Some version.now) }
        ensures none { IfNone result (single_of self.now ≡ None) }
    {
        match self.items() {
            [Item::Exact(version) | Item::Prefix(version)] => Some(version),
            _ => None,
        }
    }
}

impl Duplicate for VersionSet {
    fn duplicate(&self, alloc: Global) -> Result<VersionSet, AllocError> {
        Ok(VersionSet {
            items: self.items.duplicate(alloc)?,
        })
    }
}

impl Same for VersionSet {
    fn same(&self, other: &VersionSet) -> bool {
        self.items.same(&other.items)
    }
}
