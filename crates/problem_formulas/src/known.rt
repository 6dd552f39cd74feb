//! The conditions of a problem, each with its own formula.

use crate::{PathLits, condition_formula};
use clause_formulas::Formula;
use literal_table::LiteralTable;
use problem::Problem;
use recipe_data::Condition;
use rule_formulas::MetConditions;
use std::alloc::{AllocError, Global};

/// What conditions are read against.
#[derive(Drop)]
pub(crate) struct KnownConditions<'a> {
    pub(crate) problem: &'a Problem,
    pub(crate) table: &'a LiteralTable,
    pub(crate) paths: &'a PathLits,
}

impl<'a> MetConditions for KnownConditions<'a> {
    ghost use Rattle.valid_models.specs.Joined.{condition_said};
    ghost use Rattle.rule_formulas.specs.Paths.{path_by};

    ghost condition_of = { λ known name when. condition_said known.problem.now known.table.now (path_by known.table.now known.paths.now) name when };

    fn met(&self, alloc: Global, name: &str, when: &Condition) -> Result<Formula, AllocError> {
        let world = self.problem.world();
        condition_formula(alloc, self.table, &world, self.paths, name, when)
    }
}
