//! Why a text is no lock file.
ghost use Rattle.std.specs.Prelude.{◌≡◌};
ghost use Rattle.lockfile.specs.declared.fault.LockFault.TheVariants.{OutOfMemory};

use plain_data::Word;
use spec_hash::Hash;
use std::alloc::{AllocError, AllocFailed};
use thiserror::Error;

/// Why a text is no lock file: the first of these kinds that exists, at its first place.
#[derive(Debug, Drop, Error)]
pub enum LockFault {
    #[error("not JSON")]
    NotJson,
    /// The value at this pointer (RFC 6901) has not the form of its place.
    #[error("a value of the wrong kind at {0}")]
    WrongKind(Word),
    /// A node has the name of one before it.
    #[error("a node is named twice")]
    TwiceNamed(Word),
    /// A node's hash is not that of its record's canonical text.
    #[error("a node has another hash than is written")]
    HashDiffers { written: Hash, computed: Hash },
    /// A child that the graph would have is no node, or a root, which then is parent and child.
    #[error("a child or a root is no node")]
    Dangling { parent: Hash, child: Hash },
    #[error("out of memory")]
    OutOfMemory,
}

impl From<AllocError> for LockFault {
    ghost from_gives = { λ _ fault. fault ≡ OutOfMemory };

    fn from(_: AllocError) -> LockFault {
        LockFault::OutOfMemory
    }
}

impl<T: Drop> From<AllocFailed<T>> for LockFault {
    ghost from_gives = { λ _ fault. fault ≡ OutOfMemory };

    fn from(_: AllocFailed<T>) -> LockFault {
        LockFault::OutOfMemory
    }
}
