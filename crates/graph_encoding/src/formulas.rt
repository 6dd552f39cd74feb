//! What gives the formulas of a problem.

use clause_formulas::{Defined, Formula};
use graph_levels::PathLits;
use literal_table::LiteralTable;
use problem::Demand;
use std::alloc::{AllocError, Global};

/// The formulas of a structure, of conditions, of rules and of demands, over a table.
pub trait RuleFormulas {
    ghost use Rattle.std.specs.Prelude.{◌≡◌, IfOk};
    ghost use Rattle.clause_formulas.specs.Drafts.{statement_at};
    ghost use Rattle.graph_encoding.specs.Formulas.{Formulas};
    ghost use Rattle.literal_table.specs.Tables.{Table};
    ghost use Rattle.graph_encoding.specs.Ranges.{path_words};

    ghost formulas: { Self → Table → Formulas };

    /// The formulas of the structure.
    fn structure(&self, alloc: Global, table: &LiteralTable) -> Result<Vec<Formula>, AllocError>
        ensures { IfOk result (λ list. list.items ≡ (formulas self.now table.now).structure) };

    /// The formulas of the conditions, by their places.
    fn conditions(
        &self,
        alloc: Global,
        table: &LiteralTable,
        paths: &PathLits,
    ) -> Result<Vec<Formula>, AllocError>
        ensures { IfOk result (λ list. list.items
            ≡ (formulas self.now table.now).conditions (path_words table.now paths.now)) };

    /// The formula of the rules that are always asked.
    fn rules(
        &self,
        alloc: Global,
        table: &LiteralTable,
        paths: &PathLits,
        values: &[Defined],
    ) -> Result<Formula, AllocError>
        ensures { IfOk result (λ formula. formula
            ≡ (formulas self.now table.now).rules (path_words table.now paths.now)
            (statement_at values.now)) };

    /// The formula of a demand.
    fn demand(
        &self,
        alloc: Global,
        table: &LiteralTable,
        paths: &PathLits,
        values: &[Defined],
        demand: &Demand,
    ) -> Result<Formula, AllocError>
        ensures { IfOk result (λ formula. formula
            ≡ (formulas self.now table.now).demand (path_words table.now paths.now)
            (statement_at values.now)
            demand.now) };
}
