//! What builds the formulas of demands and of directives.
ghost use Rattle.std.specs.Prelude.{◌≡◌};

use crate::spec_builder::SpecBuilder;
use condition_rules::World;
use graph_levels::PathLits;
use problem::Problem;
use word_formulas::Scribe;

/// A problem, the literals of nodes and of paths, and what gives conditions their formulas.
#[derive(Drop)]
pub(crate) struct DemandBuilder<'a, C> {
    pub(crate) scribe: Scribe<'a>,
    pub(crate) problem: &'a Problem,
    pub(crate) paths: &'a PathLits,
    pub(crate) conditions: &'a C,
}

impl<'a, C> DemandBuilder<'a, C> {
    /// What builds the formulas of specs that are read against this world.
    pub(crate) fn specs<'l, 'w>(&self, world: &'l World<'w>) -> SpecBuilder<'a, 'l, 'w>
        ensures table { result.scribe.table.now ≡ self.now.scribe.table.now }
        ensures world { result.world.now ≡ world.now }
        ensures paths { result.paths.now ≡ self.now.paths.now }
    {
        SpecBuilder {
            scribe: self.scribe,
            world,
            paths: self.paths,
        }
    }
}
