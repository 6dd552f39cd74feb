//! Settings.

use graph_core::{Compiler, ValueSet, Version, VersionSet};
use plain_data::{List, Word};
use spec_grammar::{Condition, Spec};
use target_table::TargetTable;

/// A compiler that may be used: `{"name":"gcc","version":"12.3.0","os":["ubuntu22.04"]}`
#[derive(Debug, Drop)]
pub struct CompilerEntry {
    pub compiler: Compiler,
    /// The operating systems that it supports; `None` for all.
    pub os: Option<List<Word>>,
    /// The targets that it supports; `None` for all.
    pub targets: Option<List<Word>>,
}

/// A package that the site has, outside what is built: `{"spec":"zlib@1.3
/// %gcc@12.3.0","prefix":"/usr"}`
#[derive(Debug, Drop)]
pub struct ExternalEntry {
    pub version: Version,
    /// The variants that are written, in byte order of their names, each name once.
    pub variants: List<(Word, ValueSet)>,
    /// `None` where no compiler is written: the external then has none.
    pub compiler: Option<Compiler>,
    /// `None` where none is written: it is then the first of the settings.
    pub os: Option<Word>,
    /// `None` where none is written: it is then the first of the settings.
    pub target: Option<Word>,
    /// Where it is installed.
    pub prefix: Word,
}

/// What is asked of the nodes of a package: `{"one_of":["+mpi","~mpi"],"when":"%gcc"}`
#[derive(Debug, Drop)]
pub struct RequireEntry {
    pub specs: List<Spec>,
    /// Whether exactly one of them is to hold, and not at least one.
    pub one_of: bool,
    /// Where it is asked; everywhere, where none is written.
    pub when: Condition,
}

/// What is said of one package.
#[derive(Debug, Drop)]
pub struct PackageEntry {
    pub name: Word,
    /// Preferred versions, the most preferred first.
    pub versions: List<VersionSet>,
    /// Whether it may be built.
    pub buildable: bool,
    pub externals: List<ExternalEntry>,
    /// What is asked of each of its nodes, whatever its origin, in the order of the settings.
    pub require: List<RequireEntry>,
}

/// The settings of a site. A list goes from what is preferred most.
#[derive(Debug, Drop)]
pub struct Settings {
    pub platform: Word,
    /// How many clauses a search may learn.
    pub conflict_budget: u64,
    pub os: List<Word>,
    pub targets: TargetTable,
    pub compilers: List<CompilerEntry>,
    /// For each virtual package that is named the packages that provide it.
    pub providers: List<(Word, List<Word>)>,
    /// Whether a package that is the provider of one virtual by a directive that names several is the
    /// provider of the others too, where they have one.
    pub provided_together: bool,
    /// In byte order of names, each name once.
    pub packages: List<PackageEntry>,
}

/// A value that may be lent to threads, and handed back by them.
fn crosses<T: Send + Sync>() {}

/// Settings do, and so do all their parts.
fn settings_cross() {
    crosses::<Settings>();
}
