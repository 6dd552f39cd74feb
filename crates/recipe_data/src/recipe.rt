//! The rows of a recipe.
//!
//! `number` is the place of a directive among the calls of `version`, `variant`, `depends_on`, `provides`,
//! `conflicts` and `requires` in its file, from 0. A call may give no row, and keeps its number; one call of
//! `provides` may give several rows, which share it.

use graph_core::{Keyed, Kinds, ValueSet, VariantKind, Version, VersionSet};
use plain_data::{List, Word};
use spec_grammar::{Condition, Part, Spec};

/// `version("1.3", preferred=True)`
#[derive(Debug, Drop)]
pub struct VersionRow {
    pub version: Version,
    pub preferred: bool,
    pub deprecated: bool,
    pub number: u64,
}

/// `variant("fabrics", default="ofi,ucx", values=("ofi", "ucx", "psm2"), multi=True, when="@2:")`
#[derive(Debug, Drop)]
pub struct VariantRow {
    pub name: Word,
    pub kind: VariantKind,
    /// The values that it may have; those of `VariantKind::Bool` are `false` and `true`.
    pub values: ValueSet,
    /// The values that it has where nothing else is asked.
    pub default: ValueSet,
    pub when: Condition,
    pub number: u64,
}

/// `depends_on("zlib@1.2:", type="run")`
#[derive(Debug, Drop)]
pub struct DependRow {
    /// The package or virtual, which is named, and what is asked of it.
    pub part: Part,
    /// What it is needed for.
    pub kinds: Kinds,
    pub when: Condition,
    pub number: u64,
}

/// One text of `provides("mpi@:3.1", "pmi")`
#[derive(Debug, Drop)]
pub struct ProvideRow {
    /// The virtual.
    pub name: Word,
    /// The versions of it that are provided; all, where none are written.
    pub versions: Option<VersionSet>,
    pub when: Condition,
    pub number: u64,
}

/// `conflicts("%gcc@:4", when="+simd")`
#[derive(Debug, Drop)]
pub struct ConflictRow {
    pub spec: Spec,
    pub when: Condition,
    pub number: u64,
}

/// `requires("+mpi", "+threads", policy="one_of")`
#[derive(Debug, Drop)]
pub struct RequireRow {
    pub specs: List<Spec>,
    /// Whether exactly one of them is to hold, and not at least one.
    pub one_of: bool,
    pub when: Condition,
    pub number: u64,
}

/// What the recipe of a package says, each list in the order of its file.
#[derive(Debug, Drop)]
pub struct Recipe {
    pub name: Word,
    pub versions: List<VersionRow>,
    pub variants: List<VariantRow>,
    pub depends: List<DependRow>,
    pub provides: List<ProvideRow>,
    pub conflicts: List<ConflictRow>,
    pub requirements: List<RequireRow>,
}

/// Recipes stand in lists in byte order of their names.
impl Keyed for Recipe {
    ghost key_of = { λ recipe. recipe.name };

    fn key(&self) -> &str {
        self.name.as_str()
    }
}

/// A value that may be lent to threads, and handed back by them.
fn crosses<T: Send + Sync>() {}

/// Recipes do, and so do all their parts.
fn recipes_cross() {
    crosses::<Recipe>();
}
