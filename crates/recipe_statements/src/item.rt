//! Items, and why a file has none.

ghost use Rattle.std.specs.Prelude.{◌≡◌};
ghost use Rattle.recipe_statements.specs.declared.item.StatementFault.TheVariants.{OutOfMemory};

use std::alloc::{AllocError, AllocFailed};
use thiserror::Error;

/// What stands in the class of a recipe and is read: the calls of directives, and the heads of
/// `with when` blocks. The numbers are places in the list of tokens.
#[derive(Clone, Copy, Debug, PartialEq, Eq)]
pub enum ClassItem {
    /// `with when(TEXT):`, from the word `with` to the `:`; the strings stand in between, from the third
    /// token behind the first to the second before the last.
    With {
        first: u64,
        last: u64,
        /// How many heads it stands in, from 0 to 15.
        depth: u64,
    },
    /// A call of `version`, `variant`, `depends_on`, `provides`, `conflicts` or `requires`, from that word to
    /// the closing bracket.
    Call {
        first: u64,
        last: u64,
        /// How many heads it stands in, from 0 to 16.
        depth: u64,
    },
}

/// Why the tokens of a file make no items: the first fault in them. Places count bytes of the file.
#[derive(Clone, Copy, Debug, PartialEq, Eq, Error)]
pub enum StatementFault {
    /// The statement that starts at this place is not read.
    #[error("the statement at {0} is not read")]
    Unsupported(u64),
    /// There is no class. This comes after all others.
    #[error("there is no class")]
    NoClass,
    /// A second class starts at this place.
    #[error("a second class starts at {0}")]
    TwoClasses(u64),
    /// The `with` at this place stands in 16 others.
    #[error("the `with` at {0} stands in 16 others")]
    TooDeep(u64),
    /// There was no memory.
    #[error("out of memory")]
    OutOfMemory,
}

impl From<AllocError> for StatementFault {
    ghost from_gives = { λ _ fault. fault ≡ OutOfMemory };

    fn from(_: AllocError) -> StatementFault {
        StatementFault::OutOfMemory
    }
}

impl<T: Drop> From<AllocFailed<T>> for StatementFault {
    ghost from_gives = { λ _ fault. fault ≡ OutOfMemory };

    fn from(_: AllocFailed<T>) -> StatementFault {
        StatementFault::OutOfMemory
    }
}
