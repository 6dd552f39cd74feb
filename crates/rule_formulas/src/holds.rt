//! Formulas of specs and conditions at the node of a name.
ghost use Rattle.std.specs.Prelude.{◌≡◌, IfOk};
ghost use Rattle.graph_formulas.specs.Lists.{each_keeps};
ghost use Rattle.graph_formulas.specs.Parts.{below_rule, holds_rule, condition_rule};
ghost use Rattle.graph_formulas.specs.Words.{names_for, rule_said};
ghost use Rattle.rule_formulas.specs.Paths.{path_by};
ghost use Rattle.rule_formulas.specs.Says.{says};

use crate::spec_builder::SpecBuilder;
use clause_formulas::Formula;
use condition_rules::World;
use graph_levels::PathLits;
use literal_table::LiteralTable;
use recipe_data::Condition;
use spec_grammar::{Part, Spec};
use std::alloc::{AllocError, Global};
use word_formulas::{Scribe, each};

impl<'a, 'l, 'w> SpecBuilder<'a, 'l, 'w> {
    /// Each part holds at a node to which a path leads.
    fn parts_formula(&self, from: &str, parts: &[Part]) -> Result<Formula, AllocError>
        ensures { IfOk result (says self.now
            (λ world names. each_keeps (below_rule world names from.now) parts.now)) }
    {
        each(
            self.scribe.alloc,
            parts,
            |part| self.below_formula(from, part),
        )
    }

    /// The spec holds at the node of the name.
    pub(crate) fn holds_formula(&self, name: &str, spec: &Spec) -> Result<Formula, AllocError>
        ensures { IfOk result (says self.now
            (λ world names. holds_rule world names name.now spec.now)) }
    {
        let meets = self.scribe.meets_formula(self.world, name, &spec.top)?;
        let below = self.parts_formula(name, spec.below.as_slice())?;
        Formula::both(self.scribe.alloc, meets, below)
    }
}

/// The condition holds at the node of the name.
pub fn condition_formula(
    alloc: Global,
    table: &LiteralTable,
    world: &World,
    paths: &PathLits,
    name: &str,
    when: &Condition,
) -> Result<Formula, AllocError>
    ensures { IfOk result (λ formula. formula ≡ rule_said (path_by table.now paths.now) table.now
        (condition_rule world.now (names_for table.now) name.now when.now)) }
{
    let builder = SpecBuilder {
        scribe: Scribe { alloc, table },
        world,
        paths,
    };
    each(
        alloc,
        when.specs.as_slice(),
        |spec| builder.holds_formula(name, spec),
    )
}
