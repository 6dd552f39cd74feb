//! What gives the formulas of a problem.

use crate::known::KnownConditions;
use crate::rules::all_rules;
use crate::{PathLits, condition_formulas};
use clause_formulas::{Defined, Formula};
use graph_decoding::structure;
use graph_encoding::RuleFormulas;
use literal_table::LiteralTable;
use problem::{Demand, Problem};
use rule_formulas::demand_formula;
use std::alloc::{AllocError, Global};

/// The formulas of a problem, which are right.
#[derive(Drop)]
pub struct ProblemFormulas<'a> {
    pub problem: &'a Problem,
}

impl<'a> RuleFormulas for ProblemFormulas<'a> {
    ghost use Rattle.problem_formulas.specs.Given.{formulas_given};

    ghost formulas = { λ given table. formulas_given given.problem.now table };

    fn structure(&self, alloc: Global, table: &LiteralTable) -> Result<Vec<Formula>, AllocError> {
        structure(alloc, table)
    }

    fn conditions(
        &self,
        alloc: Global,
        table: &LiteralTable,
        paths: &PathLits,
    ) -> Result<Vec<Formula>, AllocError> {
        condition_formulas(alloc, self.problem, table, paths)
    }

    fn rules(
        &self,
        alloc: Global,
        table: &LiteralTable,
        paths: &PathLits,
        _values: &[Defined],
    ) -> Result<Formula, AllocError> {
        let known = KnownConditions {
            problem: self.problem,
            table,
            paths,
        };
        all_rules(alloc, self.problem, table, &known)
    }

    fn demand(
        &self,
        alloc: Global,
        table: &LiteralTable,
        paths: &PathLits,
        _values: &[Defined],
        demand: &Demand,
    ) -> Result<Formula, AllocError> {
        let known = KnownConditions {
            problem: self.problem,
            table,
            paths,
        };
        demand_formula(alloc, self.problem, table, paths, &known, demand)
    }
}
