//! The rules of a valid graph.

use plain_data::Word;

/// The rules, in the order in which a broken one is named.
#[derive(Debug, Clone, Copy, PartialEq, Eq)]
pub enum Rule {
    Root,
    Buildable,
    Version,
    Variant,
    Compiler,
    Machine,
    Edge,
    ExtraEdge,
    Constraint,
    Conflict,
    Requirement,
    Required,
    Kept,
    Provider,
    UnusedProvider,
    Together,
    Cycle,
    Unreachable,
}

/// What is said of a graph.
#[derive(Debug, Drop)]
pub enum Verdict {
    /// No rule is broken.
    Valid,
    /// The first broken rule, there the least node by bytes, and there the least number of a
    /// directive. The number is 0 for a rule without directives, the root's place for `Rule::Root`,
    /// and the requirement's place in the settings for `Rule::Required`. For `Rule::Provider`,
    /// `Rule::UnusedProvider` and `Rule::Together` the node is the virtual.
    Broken {
        rule: Rule,
        node: Word,
        directive: u64,
    },
}
