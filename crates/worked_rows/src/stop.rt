//! Why a row has no answer.
use std::alloc::{AllocError, AllocFailed};

#[derive(Clone, Copy, Debug, PartialEq, Eq)]
pub(crate) enum Stop {
    /// There is no such call, it takes other arguments, or a field is broken.
    NoRow,
    /// Two ways to one answer give two.
    TwoAnswers,
    OutOfMemory,
}

impl Stop {
    pub(crate) fn text(self) -> &'static str {
        match self {
            Stop::NoRow => "nothing: it is no row",
            Stop::TwoAnswers => "two answers",
            Stop::OutOfMemory => "nothing: there is no memory",
        }
    }
}

impl From<AllocError> for Stop {
    fn from(_: AllocError) -> Stop {
        Stop::OutOfMemory
    }
}

impl<T: Drop> From<AllocFailed<T>> for Stop {
    fn from(_: AllocFailed<T>) -> Stop {
        Stop::OutOfMemory
    }
}

/// An answer that comes two ways.
pub(crate) fn agreed(one: String, other: &str) -> Result<String, Stop> {
    if one.as_str() == other {
        Ok(one)
    } else {
        Err(Stop::TwoAnswers)
    }
}
