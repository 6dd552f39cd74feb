//! Why a text is not read.

ghost use Rattle.std.specs.Prelude.{◌≡◌};
ghost use Rattle.spec_grammar.specs.declared.fault.SpecFault.TheVariants.{OutOfMemory};

use std::alloc::AllocError;
use thiserror::Error;

/// Forms of Spack's syntax that are not read.
#[derive(Clone, Copy, Debug, PartialEq, Eq)]
pub enum Form {
    /// `++v`, `~~v`, `--v` or `k==v`, which hold for dependencies too.
    Propagation,
    /// `k:=v`
    ConcreteAssign,
    /// `k=*`
    AnyValue,
    /// `k="v"` or `k='v'`
    Quoted,
    /// `cflags=` and the other flags of compilers.
    Flags,
    /// `/hash`
    Reference,
    /// `^[..]`
    EdgeAttributes,
    /// `builtin.zlib`
    Namespace,
    /// `^` where the text may have none.
    NestedDependency,
    /// A constraint other than `@` in a text of `provides`.
    ProvidesForm,
}

/// Why a text is not read: the fault of its first item that is not right. Places count bytes.
#[derive(Clone, Copy, Debug, PartialEq, Eq, Error)]
pub enum SpecFault {
    /// The text is not of the right form. The place is the length of the longest front of the text
    /// that some text of the right form begins with.
    #[error("a spec is not of the right form at {0}")]
    Expected(u64),
    /// The item at this place begins a form that is not read.
    #[error("a spec has a form at {0} that is not read")]
    Unsupported(u64, Form),
    /// The range of versions at this place is empty.
    #[error("the range of versions at {0} is empty")]
    BadVersion(u64),
    /// The item at this place sets what is set before.
    #[error("a spec sets again at {0} what is set before")]
    TwiceSet(u64),
    /// There was no memory.
    #[error("out of memory")]
    OutOfMemory,
}

impl From<AllocError> for SpecFault {
    ghost from_gives = { λ _ fault. fault ≡ OutOfMemory };

    fn from(_: AllocError) -> SpecFault {
        SpecFault::OutOfMemory
    }
}
