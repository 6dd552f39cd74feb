//! What builds the formulas of specs and of conditions.

use condition_rules::World;
use graph_levels::PathLits;
use word_formulas::Scribe;

/// What specs are read against, and the literals of nodes and of paths.
#[derive(Drop)]
pub(crate) struct SpecBuilder<'a, 'l, 'w> {
    pub(crate) scribe: Scribe<'a>,
    pub(crate) world: &'l World<'w>,
    pub(crate) paths: &'a PathLits,
}
