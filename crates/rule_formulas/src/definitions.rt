//! The definitions of variants of a package of a problem.
ghost use Rattle.std.specs.Prelude.{◌≡◌, map, IfOk};
ghost use Rattle.graph_formulas.specs.Variants.{definitions};

use problem::Problem;
use recipe_data::VariantRow;
use std::alloc::{AllocError, Global};
use std::marker::Model;

/// The definitions of variants in the recipe of a name, found by the variants; seen as the problem
/// and the name.
#[derive(Drop)]
pub(crate) struct PackageDefinitions<'a> {
    problem: &'a Problem,
    found: condition_rules::Definitions<'a>,
}

impl<'a> Model for PackageDefinitions<'a> {
    ghost use Rattle.std.specs.Prelude.{◌≡◌};
    ghost use Rattle.graph_core.specs.Graphs.{Text};
    ghost use Rattle.problem.specs.Problems.{Problem, world_of};

    ghost Value = { Problem × Text };

    ghost view = { λ definitions. (definitions.problem.now, definitions.found.1) };

    ghost invariant = { λ definitions. definitions.found.0 ≡ world_of definitions.problem.now };
}

impl<'a> PackageDefinitions<'a> {
    /// Takes n log n comparisons for n definitions.
    pub(crate) fn new(
        alloc: Global,
        problem: &'a Problem,
        name: &'a str,
    ) -> Result<PackageDefinitions<'a>, AllocError>
        ensures { IfOk result (λ definitions. definitions ≡ (problem.now, name.now)) }
    {
        let found = condition_rules::Definitions::new(alloc, problem.world(), name)?;
        Ok(PackageDefinitions { problem, found })
    }

    pub(crate) fn name(&self) -> &'a str
        ensures { result.now ≡ self.now.1 }
    {
        self.found.name()
    }

    /// The definitions of the variant, in the order of the recipe.
    pub(crate) fn of(&self, alloc: Global, variant: &str) -> Result<Vec<&'a VariantRow>, AllocError>
        ensures { IfOk result (λ found. map (λ row. row.now) found.items
            ≡ definitions self.now.0 self.now.1 variant.now) }
    {
        self.found.of(alloc, variant)
    }
}
