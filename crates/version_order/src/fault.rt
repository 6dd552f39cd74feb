//! Why a text is no version, and no set of versions.

ghost use Rattle.std.specs.Prelude.{◌≡◌};
ghost use Rattle.version_order.specs.declared.fault.VersionFault.TheVariants as version;
ghost use Rattle.version_order.specs.declared.fault.VersionSetFault.TheVariants as set;

use std::alloc::AllocError;
use thiserror::Error;

/// Why a version was not read.
///
/// A version has no fault but `OutOfMemory`, and any other text has one of `Empty` and `BadByte`.
#[derive(Clone, Copy, Debug, PartialEq, Eq, Error)]
pub enum VersionFault {
    /// The text is empty.
    #[error("a version is empty")]
    Empty,
    /// The length of the longest front of the text that some version begins with, so the place of
    /// the first byte that no version has there.
    #[error("a version has a wrong byte at {0}")]
    BadByte(u64),
    /// There was no memory to keep the text.
    #[error("out of memory")]
    OutOfMemory,
}

impl From<AllocError> for VersionFault {
    ghost from_gives = { λ _ fault. fault ≡ version.OutOfMemory };

    fn from(_: AllocError) -> VersionFault {
        VersionFault::OutOfMemory
    }
}

/// Why a set of versions was not read.
///
/// A text of the right form that has no empty range has no fault but `OutOfMemory`.
#[derive(Clone, Copy, Debug, PartialEq, Eq, Error)]
pub enum VersionSetFault {
    /// The text is empty.
    #[error("a set of versions is empty")]
    Empty,
    /// The length of the longest front of the text that some text of the right form begins with: the
    /// place of the first byte that none has there, or the text's length where it ends too early.
    #[error("a set of versions has a wrong byte at {0}")]
    BadByte(u64),
    /// The place of the first item that is an empty range, in a text of the right form.
    #[error("the range of versions at {0} is empty")]
    EmptyRange(u64),
    /// There was no memory to keep the items.
    #[error("out of memory")]
    OutOfMemory,
}

impl From<AllocError> for VersionSetFault {
    ghost from_gives = { λ _ fault. fault ≡ set.OutOfMemory };

    fn from(_: AllocError) -> VersionSetFault {
        VersionSetFault::OutOfMemory
    }
}
