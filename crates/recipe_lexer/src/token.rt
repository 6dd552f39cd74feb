//! Tokens, and why a file has none.

ghost use Rattle.std.specs.Prelude.{◌≡◌};
ghost use Rattle.recipe_lexer.specs.Layout.{slice};
ghost use Rattle.recipe_lexer.specs.declared.token.LexFault.TheVariants.{OutOfMemory};

use crate::line;
use std::alloc::{AllocError, AllocFailed};
use thiserror::Error;

/// What a token is.
#[derive(Clone, Copy, Debug, PartialEq, Eq)]
pub enum TokenKind {
    /// A run of letters, digits, `_` and bytes from 128 up: a name, a word of the language, a number.
    Word,
    /// A string with its prefix and its quotation marks.
    Text,
    /// Any other byte that is no white space.
    Op(u8),
    /// The end of a line that has a token: its line feed, or the end of the file.
    NewLine,
    /// A line begins that is indented deeper; the slice is its indentation.
    Indent,
    /// A block ends; the slice is empty and stands behind the indentation of the next line.
    Dedent,
    /// The end of the file, an empty slice.
    End,
}

/// A token, whose text is the slice of the file from byte `start` up to byte `end`.
#[derive(Clone, Copy, Debug, PartialEq, Eq)]
pub struct Token {
    pub kind: TokenKind,
    pub start: u64,
    pub end: u64,
}

impl Token {
    /// The text of the token in its file.
    pub fn text(self, bytes: &[u8]) -> &[u8]
        ensures { result.now ≡ slice bytes.now self.start self.end }
    {
        line::slice(bytes, self.start, self.end)
    }
}

/// Why a file has no tokens: the first fault in it. Places count bytes.
#[derive(Clone, Copy, Debug, PartialEq, Eq, Error)]
pub enum LexFault {
    /// The file is not UTF-8. This comes before all others.
    #[error("the file is not UTF-8")]
    NotUtf8,
    /// The string that opens with the quotation mark at this place does not end.
    #[error("the string at {0} does not end")]
    OpenString(u64),
    /// The closing bracket at this place does not fit the innermost open one. Or no fault stands in
    /// the file but an open bracket at its end, whose innermost one is at this place.
    #[error("the bracket at {0} has no partner")]
    OpenBracket(u64),
    /// The indentation that starts at this place returns to no earlier one, or is deeper without a
    /// `:` before it; or a tab stands at this place in an indentation.
    #[error("the indentation at {0} is wrong")]
    BadIndent(u64),
    /// There was no memory.
    #[error("out of memory")]
    OutOfMemory,
}

impl From<AllocError> for LexFault {
    ghost from_gives = { λ _ fault. fault ≡ OutOfMemory };

    fn from(_: AllocError) -> LexFault {
        LexFault::OutOfMemory
    }
}

impl<T: Drop> From<AllocFailed<T>> for LexFault {
    ghost from_gives = { λ _ fault. fault ≡ OutOfMemory };

    fn from(_: AllocFailed<T>) -> LexFault {
        LexFault::OutOfMemory
    }
}
