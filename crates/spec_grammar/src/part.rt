//! What is asked of packages.

use plain_data::{List, Word};
use variant_values::ValueSet;
use version_order::VersionSet;

/// One item of `target=`: `t` alone, or a range `low:high` in which either end may be missing.
#[derive(Debug, Drop)]
pub struct TargetItem {
    /// The target that stands alone, or the low end.
    pub low: Option<Word>,
    /// The high end.
    pub high: Option<Word>,
    /// Whether it is a range.
    pub range: bool,
}

/// What is asked of one package. What is not asked for is `None`, or no element.
#[derive(Debug, Drop)]
pub struct Part {
    /// The package's name. A condition may have none.
    pub name: Option<Word>,
    /// `@1.2:1.4`
    pub versions: Option<VersionSet>,
    /// `+mpi`, `~mpi` or `fabrics=ofi,ucx`, in byte order of the names, each name once.
    pub variants: List<(Word, ValueSet)>,
    /// `%gcc@12`
    pub compiler: Option<(Word, Option<VersionSet>)>,
    /// `platform=linux`
    pub platform: Option<Word>,
    /// `os=rocky9`
    pub os: Option<Word>,
    /// `target=zen3,x86_64:`, in the order of the text.
    pub targets: Option<List<TargetItem>>,
}

/// What is asked of a package and of packages that it depends on.
#[derive(Debug, Drop)]
pub struct Spec {
    /// The package.
    pub top: Part,
    /// The parts after `^`, in the order of the text.
    pub below: List<Part>,
}

/// A condition: specs that must all hold at a package. Where there is none, it always holds.
///
/// Of a directive those of the enclosing `with when(..)` blocks stand first, the outermost before
/// the others, and then its own `when=`.
#[derive(Debug, Drop)]
pub struct Condition {
    pub specs: List<Spec>,
}
