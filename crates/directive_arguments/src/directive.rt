//! The directives that are read, and what they do with their arguments.

/// The directives that are read.
#[derive(Clone, Copy, Debug, PartialEq, Eq)]
pub enum Directive {
    Version,
    Variant,
    DependsOn,
    Provides,
    Conflicts,
    Requires,
}

/// The keywords whose values are read.
#[derive(Clone, Copy, Debug, PartialEq, Eq)]
pub enum Keyword {
    Preferred,
    Deprecated,
    Default,
    Values,
    Multi,
    When,
    Kinds,
    Policy,
}

/// What a directive does with a keyword.
#[derive(Clone, Copy, Debug, PartialEq, Eq)]
pub enum Role {
    /// It reads the value.
    Reads(Keyword),
    /// It passes the value over.
    PassesOver,
    /// It does not take it.
    Refuses,
}

/// How many positional values a directive reads, one at least.
#[derive(Clone, Copy, Debug, PartialEq, Eq)]
pub enum Count {
    /// One.
    One,
    /// One; it passes further ones over.
    OneAndOthers,
    /// One or more.
    OneOrMore,
}
