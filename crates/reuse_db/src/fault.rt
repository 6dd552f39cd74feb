//! Why records are no database.
ghost use Rattle.std.specs.Prelude.{◌≡◌};
ghost use Rattle.reuse_db.specs.declared.fault.DbFault.TheVariants.{OutOfMemory};

use plain_data::Word;
use spec_hash::Hash;
use std::alloc::{AllocError, AllocFailed};
use thiserror::Error;

/// Why a text or a list of records is no database: the first of these that exists, at its first
/// place.
#[derive(Debug, Drop, Error)]
pub enum DbFault {
    #[error("not JSON")]
    NotJson,
    /// The value at this pointer has not the form of its place.
    #[error("a value of the wrong kind at {0}")]
    WrongKind(Word),
    /// A record's hash is not that of its canonical text.
    #[error("a record has another hash than is written")]
    HashDiffers { written: Hash, computed: Hash },
    /// A record has the hash of one before it.
    #[error("a hash stands twice")]
    TwiceHash(Hash),
    /// A link or run child is no record.
    #[error("a child is no record")]
    Dangling { parent: Hash, child: Hash },
    #[error("out of memory")]
    OutOfMemory,
}

impl From<AllocError> for DbFault {
    ghost from_gives = { λ _ fault. fault ≡ OutOfMemory };

    fn from(_: AllocError) -> DbFault {
        DbFault::OutOfMemory
    }
}

impl<T: Drop> From<AllocFailed<T>> for DbFault {
    ghost from_gives = { λ _ fault. fault ≡ OutOfMemory };

    fn from(_: AllocFailed<T>) -> DbFault {
        DbFault::OutOfMemory
    }
}
