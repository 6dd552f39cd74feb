//! The items of a text.

use plain_data::{List, Word};
use version_order::VersionSet;

/// The sign before a variant's name.
#[derive(Clone, Copy)]
pub enum Mark {
    /// `+`
    Plus,
    /// `~`
    Tilde,
    /// `-`
    Minus,
}

/// An item of a text.
#[derive(Drop)]
pub enum SpecItem {
    /// A package's name.
    Name(Word),
    /// `@1.2:1.4`
    Versions(VersionSet),
    /// `+mpi`
    Variant(Mark, Word),
    /// `%gcc@12`
    Compiler(Word, Option<VersionSet>),
    /// `fabrics=ofi,ucx`, with its values in the order of the text.
    Key(Word, List<Word>),
    /// `^`
    Caret,
}

/// The kind of an item.
#[derive(Clone, Copy)]
pub enum Kind {
    /// A package's name.
    Name,
    /// `@LIST`
    Versions,
    /// A sign and a variant's name.
    Variant(Mark),
    /// `%NAME`
    Compiler,
    /// `NAME=`
    Key,
    /// `^`
    Caret,
}
