//! What the arguments of a directive say.

use crate::names::Names;
use graph_core::Kinds;
use plain_data::{List, Word};
use recipe_values::Value;
use spec_grammar::{Part, Spec};
use variant_values::ValueSet;
use version_order::Version;

/// What the positional values say: one field for each directive.
#[derive(Debug, Drop)]
pub struct Positional {
    /// `version`
    pub version: Option<Version>,
    /// `variant`
    pub name: Option<Word>,
    /// `depends_on`
    pub part: Option<Part>,
    /// `provides`
    pub parts: List<Part>,
    /// `conflicts`
    pub spec: Option<Spec>,
    /// `requires`
    pub specs: List<Spec>,
}

/// What the keywords say.
#[derive(Debug, Drop)]
pub struct Options {
    /// `when`; none where it is not written, or `None`.
    pub when: Option<Spec>,
    pub preferred: bool,
    pub deprecated: bool,
    pub multi: bool,
    /// `policy`
    pub one_of: bool,
    /// `type` without `test`
    pub kinds: Kinds,
    pub default: Option<Value>,
    pub values: Option<ValueSet>,
}

/// What the arguments of a directive said so far.
#[derive(Debug, Drop)]
pub struct Given {
    pub positional: Positional,
    /// The keywords that were given.
    pub names: Names,
    pub options: Options,
}
