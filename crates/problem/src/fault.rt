//! Why requested specs are refused.
ghost use Rattle.std.specs.Prelude.{◌≡◌};
ghost use Rattle.problem.specs.declared.fault.ProblemFault.TheVariants.{OutOfMemory};

use plain_data::Word;
use std::alloc::AllocError;
use thiserror::Error;

/// Why requested specs are refused: the first root that has a fault, and there the first of these.
#[derive(Debug, Drop, Error)]
pub enum ProblemFault {
    /// No recipe, external, record or provision has the name.
    #[error("{0} is unknown")]
    UnknownRoot(Word),
    /// Some recipe provides the name.
    #[error("{0} is a virtual")]
    VirtualRoot(Word),
    /// A part of a root asks for this platform, which is not the machine's.
    #[error("the platform {0} is not the machine's")]
    WrongPlatform(Word),
    #[error("out of memory")]
    OutOfMemory,
}

impl From<AllocError> for ProblemFault {
    ghost from_gives = { λ _ fault. fault ≡ OutOfMemory };

    fn from(_: AllocError) -> ProblemFault {
        ProblemFault::OutOfMemory
    }
}
