//! Why a file is no recipe.

ghost use Rattle.std.specs.Prelude.{◌≡◌};
ghost use Rattle.recipe_reader.specs.declared.fault.RecipeFault.TheVariants.{OutOfMemory};
ghost use Rattle.recipe_reader.specs.Results.{lex_fault, statement_fault, argument_fault};

use directive_arguments::ArgumentFault;
use recipe_lexer::LexFault;
use recipe_statements::StatementFault;
use spec_grammar::SpecFault;
use std::alloc::{AllocError, AllocFailed};
use thiserror::Error;

/// Why a file is no recipe: the first fault of its tokens, else the first of its statements, else the first of
/// its arguments and directives. Places count bytes of the file.
#[derive(Clone, Copy, Debug, PartialEq, Eq, Error)]
pub enum RecipeFault {
    /// The file has no tokens.
    #[error("the file has no tokens")]
    Lex(LexFault),
    /// What starts at this place is not read: a statement, an expression that is no value, an argument too
    /// many, an unknown keyword, the prefix or an escape of a string, or a `version` in a `with when` block.
    #[error("what starts at {0} is not read")]
    Unsupported(u64),
    /// There is no class.
    #[error("there is no class")]
    NoClass,
    /// A second class starts at this place.
    #[error("a second class starts at {0}")]
    TwoClasses(u64),
    /// The `with` at this place stands in 16 others.
    #[error("the `with` at {0} stands in 16 others")]
    TooDeep(u64),
    /// The text whose first string is at this place has a fault; its own place counts bytes of the text
    /// that the strings stand for.
    #[error("the text at {0} is not read")]
    Spec(u64, SpecFault),
    /// The value at this place is of the wrong kind, or the keyword at this place was given before, or
    /// the directive at this place lacks its first value.
    #[error("the argument at {0} is wrong")]
    BadArgument(u64),
    /// The variant that is defined at this place has no right default.
    #[error("the variant at {0} has no right default")]
    BadDefault(u64),
    /// The version that is declared at this place was declared before.
    #[error("the version at {0} was declared before")]
    TwiceVersion(u64),
    /// There was no memory.
    #[error("out of memory")]
    OutOfMemory,
}

impl From<AllocError> for RecipeFault {
    ghost from_gives = { λ _ fault. fault ≡ OutOfMemory };

    fn from(_: AllocError) -> RecipeFault {
        RecipeFault::OutOfMemory
    }
}

impl<T: Drop> From<AllocFailed<T>> for RecipeFault {
    ghost from_gives = { λ _ fault. fault ≡ OutOfMemory };

    fn from(_: AllocFailed<T>) -> RecipeFault {
        RecipeFault::OutOfMemory
    }
}

/// A value that may be lent to threads, and handed back by them.
fn crosses<T: Send + Sync>() {}

/// Faults do.
fn faults_cross() {
    crosses::<RecipeFault>();
}

/// The fault of a file that has no tokens.
pub(crate) fn lex_fault(fault: LexFault) -> RecipeFault
    ensures { result ≡ lex_fault fault }
{
    match fault {
        LexFault::OutOfMemory => RecipeFault::OutOfMemory,
        _ => RecipeFault::Lex(fault),
    }
}

/// The fault of a statement.
pub(crate) fn statement_fault(fault: StatementFault) -> RecipeFault
    ensures { result ≡ statement_fault fault }
{
    match fault {
        StatementFault::Unsupported(place) => RecipeFault::Unsupported(place),
        StatementFault::NoClass => RecipeFault::NoClass,
        StatementFault::TwoClasses(place) => RecipeFault::TwoClasses(place),
        StatementFault::TooDeep(place) => RecipeFault::TooDeep(place),
        StatementFault::OutOfMemory => RecipeFault::OutOfMemory,
    }
}

/// The fault of the arguments of a directive, or of a condition.
pub(crate) fn argument_fault(fault: ArgumentFault) -> RecipeFault
    ensures { result ≡ argument_fault fault }
{
    match fault {
        ArgumentFault::Unsupported(place) => RecipeFault::Unsupported(place),
        ArgumentFault::Spec(place, fault) => RecipeFault::Spec(place, fault),
        ArgumentFault::BadArgument(place) => RecipeFault::BadArgument(place),
        ArgumentFault::OutOfMemory => RecipeFault::OutOfMemory,
    }
}
