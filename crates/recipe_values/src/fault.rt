//! Why something is no value.

ghost use Rattle.std.specs.Prelude.{◌≡◌};
ghost use Rattle.recipe_values.specs.declared.fault.ValueFault.TheVariants.{OutOfMemory};

use std::alloc::{AllocError, AllocFailed};
use thiserror::Error;

/// Why something is no value. Places count bytes of the file.
#[derive(Clone, Copy, Debug, PartialEq, Eq, Error)]
pub enum ValueFault {
    /// What starts at this place is not read: an expression that is no value, the prefix or an escape of a
    /// string. Where nothing stands, it is the place of the comma or bracket behind.
    #[error("what starts at {0} is not read")]
    Unsupported(u64),
    /// There was no memory.
    #[error("out of memory")]
    OutOfMemory,
}

impl From<AllocError> for ValueFault {
    ghost from_gives = { λ _ fault. fault ≡ OutOfMemory };

    fn from(_: AllocError) -> ValueFault {
        ValueFault::OutOfMemory
    }
}

impl<T: Drop> From<AllocFailed<T>> for ValueFault {
    ghost from_gives = { λ _ fault. fault ≡ OutOfMemory };

    fn from(_: AllocFailed<T>) -> ValueFault {
        ValueFault::OutOfMemory
    }
}
