//! What is installed.

use graph_core::{Compiler, Kinds, ValueSet, Version};
use plain_data::{List, Word};
use spec_hash::Hash;

/// What an installed package needs.
#[derive(Debug, Drop)]
pub struct Dependency {
    pub hash: Hash,
    /// At least one.
    pub kinds: Kinds,
    /// What it provides to the package.
    pub virtuals: ValueSet,
}

/// An installed package, as a database has it.
#[derive(Debug, Drop)]
pub struct Record {
    /// The hash of its canonical text.
    pub hash: Hash,
    pub name: Word,
    pub version: Version,
    /// In byte order of names, each name once and with at least one value.
    pub variants: List<(Word, ValueSet)>,
    pub compiler: Option<Compiler>,
    pub os: Word,
    pub target: Word,
    /// The prefix of an external.
    pub external: Option<Word>,
    /// What it was built with, is linked to or runs with, each hash once.
    pub dependencies: List<Dependency>,
}
