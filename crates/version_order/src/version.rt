//! A version.

ghost use Rattle.std.specs.Prelude.{◌≡◌, IfOk, IfErr};
ghost use Rattle.version_order.specs.Signs.{IsVersion};
ghost use Rattle.version_order.specs.Faults.{IsVersionFault};
ghost use Rattle.version_order.specs.Order.{version_cmp};
ghost use Rattle.version_order.specs.Prefix.{is_prefix, is_special};

use crate::reading::{fault_of, text_of};
use crate::{VersionFault, order};
use plain_data::{Duplicate, Same, Word};
use std::alloc::{AllocError, Global};
use std::cmp::Ordering;
use std::marker::Model;

/// A version, seen as the bytes of its text.
///
/// Its text is a letter, a digit or `_`, and then letters, digits, `_`, `.` and `-`, all of ASCII.
/// Its components are the pieces of the text, cut at `.`, `-`, `_` and at each change between digits
/// and letters; empty pieces are none. So `1.2b3` has the components `1`, `2`, `b` and `3`.
#[derive(Debug, Drop)]
pub struct Version {
    text: Word,
}

impl Model for Version {
    ghost use Rattle.std.specs.Prelude.{ℕ, List};
    ghost use Rattle.version_order.specs.Signs.{IsVersion};

    ghost Value = { List ℕ };

    ghost view = { λ version. version.text };

    ghost invariant = { λ version. IsVersion version.text };
}

impl Version {
    /// The version that a text is, as `1.10.3`, `2.0-rc1` or `develop`.
    ///
    /// # Errors
    ///
    /// `Empty` for the empty text, `BadByte` for any other text that is no version, and
    /// `OutOfMemory`, the only one for a version.
    pub fn read(alloc: Global, text: &str) -> Result<Version, VersionFault>
        ensures found { IfOk result (λ version. (version ≡ text.now) × IsVersion text.now) }
        ensures fault { IfErr result (λ fault. IsVersionFault text.now fault) }
    {
        if let Some(fault) = fault_of(text.as_bytes()) {
            return Err(fault);
        }
        Ok(Version {
            text: Word::new(alloc, text)?,
        })
    }

    /// The version whose text has these bytes.
    ///
    /// # Errors
    ///
    /// Those of `read`.
    pub fn from_bytes(alloc: Global, bytes: &[u8]) -> Result<Version, VersionFault>
        ensures found { IfOk result (λ version. (version ≡ bytes.now) × IsVersion bytes.now) }
        ensures fault { IfErr result (λ fault. IsVersionFault bytes.now fault) }
    {
        if let Some(fault) = fault_of(bytes) {
            return Err(fault);
        }
        Ok(Version::of_bytes(alloc, bytes)?)
    }

    /// The version with these bytes as its text, which are known to be right.
    pub(crate) fn of_bytes(alloc: Global, bytes: &[u8]) -> Result<Version, AllocError>
        requires { IsVersion bytes.now }
        ensures { IfOk result (λ version. version ≡ bytes.now) }
    {
        Ok(Version {
            text: Word::new(alloc, text_of(bytes))?,
        })
    }

    /// The text, as it was read.
    pub fn text(&self) -> &str
        ensures text { result.now ≡ self.now }
        ensures form { IsVersion self.now }
    {
        self.text.as_str()
    }

    /// Where this version stands to another.
    ///
    /// Where the last two components are `alpha`, `beta` or `rc` and a number, they are the
    /// pre-release, and the others are the release. First the releases decide, component by
    /// component, a proper prefix being smaller; then the pre-releases, of which none is above any,
    /// `alpha` below `beta` below `rc`, and then the number counts; then the bytes of the texts.
    ///
    /// Of components, `develop`, `main`, `master`, `head`, `trunk` and `stable` are the greatest, in
    /// this order; 1 to 18 digits are numbers and stand below these; any other piece, a longer run of
    /// digits too, stands below all numbers and is ordered by its bytes.
    ///
    /// So `1.0-alpha1 < 1.0-beta1 < 1.0-rc1 < 1.0 < 1.0.1 < 2 < develop`.
    pub fn compare(&self, other: &Version) -> Ordering
        ensures { result ≡ version_cmp self.now other.now }
    {
        order::compare(self.text().as_bytes(), other.text().as_bytes())
    }

    /// Whether the components of this version are the first of the other's, as those of `1.2` are of
    /// `1.2.3`, and those of `1.0` of `1.0-rc1`. Numbers count by their values: `1.01` is a prefix of
    /// `1.1.5`.
    pub fn is_prefix(&self, other: &Version) -> bool
        ensures { result ≡ is_prefix self.now other.now }
    {
        order::is_prefix(self.text().as_bytes(), other.text().as_bytes())
    }

    /// Whether some component is one of `develop`, `main`, `master`, `head`, `trunk` and `stable`.
    pub fn is_special(&self) -> bool
        ensures { result ≡ is_special self.now }
    {
        order::is_special(self.text().as_bytes())
    }
}

impl Duplicate for Version {
    fn duplicate(&self, alloc: Global) -> Result<Version, AllocError> {
        Ok(Version {
            text: self.text.duplicate(alloc)?,
        })
    }
}

impl Same for Version {
    fn same(&self, other: &Version) -> bool {
        self.text.same(&other.text)
    }
}
