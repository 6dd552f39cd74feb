//! Why the arguments of a directive are refused.

ghost use Rattle.std.specs.Prelude.{◌≡◌};
ghost use Rattle.directive_arguments.specs.declared.fault.ArgumentFault.TheVariants.{OutOfMemory};
ghost use Rattle.directive_arguments.specs.Results.{text_fault};

use spec_grammar::SpecFault;
use std::alloc::{AllocError, AllocFailed};
use thiserror::Error;

/// Why the arguments of a directive are refused: the first fault from the left. Places count bytes of the file.
#[derive(Clone, Copy, Debug, PartialEq, Eq, Error)]
pub enum ArgumentFault {
    /// What starts at this place is not read: an expression that is no value, an argument too many, an unknown
    /// keyword, the prefix or an escape of a string.
    #[error("what starts at {0} is not read")]
    Unsupported(u64),
    /// The text whose first string is at this place has a fault; its own place counts bytes of the text
    /// that the strings stand for.
    #[error("the text at {0} is not read")]
    Spec(u64, SpecFault),
    /// The value at this place is of the wrong kind, or the keyword at this place was given before.
    #[error("the argument at {0} is wrong")]
    BadArgument(u64),
    /// There was no memory.
    #[error("out of memory")]
    OutOfMemory,
}

impl From<AllocError> for ArgumentFault {
    ghost from_gives = { λ _ fault. fault ≡ OutOfMemory };

    fn from(_: AllocError) -> ArgumentFault {
        ArgumentFault::OutOfMemory
    }
}

impl<T: Drop> From<AllocFailed<T>> for ArgumentFault {
    ghost from_gives = { λ _ fault. fault ≡ OutOfMemory };

    fn from(_: AllocFailed<T>) -> ArgumentFault {
        ArgumentFault::OutOfMemory
    }
}

/// A value that may be lent to threads, and handed back by them.
fn crosses<T: Send + Sync>() {}

/// Faults do.
fn faults_cross() {
    crosses::<ArgumentFault>();
}

/// The fault of a text whose first string is at this place.
pub(crate) fn text_fault(place: u64, fault: SpecFault) -> ArgumentFault
    ensures { result ≡ text_fault place fault }
{
    match fault {
        SpecFault::OutOfMemory => ArgumentFault::OutOfMemory,
        _ => ArgumentFault::Spec(place, fault),
    }
}
