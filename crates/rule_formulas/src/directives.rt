//! Formulas of directives.
ghost use Rattle.std.specs.Prelude.{◌==◌, filter, IfOk};
ghost use Rattle.clause_formulas.specs.Rules.{both_of};
ghost use Rattle.problem.specs.Problems.{depends_at, conflicts_at, requirements_at};
ghost use Rattle.graph_formulas.specs.Lists.{each_keeps};
ghost use Rattle.graph_formulas.specs.Directives.{edge_rule, constraint_rule, conflict_rule, requirement_rule};
ghost use Rattle.graph_formulas.specs.Demands.{directive_rule};
ghost use Rattle.rule_formulas.specs.Says.{says_by, says_choice};

use crate::demand_builder::DemandBuilder;
use crate::numbered::{conflicts_with, depends_with, requirements_with};
use clause_formulas::Formula;
use recipe_data::{ConflictRow, DependRow, RequireRow};
use std::alloc::AllocError;
use word_formulas::{MetConditions, Scribe, each};

impl<'a, C: MetConditions> DemandBuilder<'a, C> {
    /// Where the condition of the row is met, its edge is there, and the node that it asks for
    /// suits it.
    fn depend_formula(&self, name: &str, row: &DependRow) -> Result<Formula, AllocError>
        ensures { IfOk result (says_by C.condition_of self.now
            (λ problem names. both_of (edge_rule problem names name.now row.now)
            (constraint_rule problem names name.now row.now))) }
    {
        let met = self.conditions.met(self.scribe.alloc, name, &row.when)?;
        let edge = self.scribe.edge_formula(self.problem, name, row, met)?;
        let again = self.conditions.met(self.scribe.alloc, name, &row.when)?;
        let constraint = self.scribe.constraint_formula(self.problem, row, again)?;
        Formula::both(self.scribe.alloc, edge, constraint)
    }

    /// Not both the condition of the row is met and its spec holds.
    fn conflict_formula(&self, name: &str, row: &ConflictRow) -> Result<Formula, AllocError>
        ensures { IfOk result (says_by C.condition_of self.now
            (λ problem names. conflict_rule problem names name.now row.now)) }
    {
        let world = self.problem.world();
        let met = self.conditions.met(self.scribe.alloc, name, &row.when)?;
        let holds = self.specs(&world).holds_formula(name, &row.spec)?;
        let both = Formula::both(self.scribe.alloc, met, holds)?;
        Ok(both.negated())
    }

    /// As many specs of the row hold as it asks for.
    fn choice_formula(&self, name: &str, row: &RequireRow) -> Result<Formula, AllocError>
        ensures { IfOk result (says_choice self.now name.now row.now) }
    {
        let world = self.problem.world();
        let specs = self.specs(&world);
        if row.one_of {
            specs.one_formula(name, row.specs.as_slice())
        } else {
            specs.some_formula(name, row.specs.as_slice())
        }
    }

    /// Where the condition of the row is met, as many of its specs hold as it asks for.
    pub(crate) fn requirement_formula(
        &self,
        name: &str,
        row: &RequireRow,
    ) -> Result<Formula, AllocError>
        ensures { IfOk result (says_by C.condition_of self.now
            (λ problem names. requirement_rule problem names name.now row.now)) }
    {
        let met = self.conditions.met(self.scribe.alloc, name, &row.when)?;
        let choice = self.choice_formula(name, row)?;
        Formula::implies(self.scribe.alloc, met, choice)
    }

    // Each dependency of this number is met, and so is what it asks of its child.
    fn depends_formula(&self, name: &str, number: u64) -> Result<Formula, AllocError>
        ensures { IfOk result (says_by C.condition_of self.now
            (λ problem names. each_keeps (λ row. both_of (edge_rule problem names name.now row)
            (constraint_rule problem names name.now row))
            (filter (λ row. row.number == number) (depends_at problem name.now)))) }
    {
        each(
            self.scribe.alloc,
            depends_with(self.problem, name, number),
            |row| self.depend_formula(name, row),
        )
    }

    // No conflict of this number holds.
    fn conflicts_formula(&self, name: &str, number: u64) -> Result<Formula, AllocError>
        ensures { IfOk result (says_by C.condition_of self.now
            (λ problem names. each_keeps (conflict_rule problem names name.now)
            (filter (λ row. row.number == number) (conflicts_at problem name.now)))) }
    {
        each(
            self.scribe.alloc,
            conflicts_with(self.problem, name, number),
            |row| self.conflict_formula(name, row),
        )
    }

    // Each requirement of this number is met.
    fn requirements_formula(&self, name: &str, number: u64) -> Result<Formula, AllocError>
        ensures { IfOk result (says_by C.condition_of self.now
            (λ problem names. each_keeps (requirement_rule problem names name.now)
            (filter (λ row. row.number == number) (requirements_at problem name.now)))) }
    {
        each(
            self.scribe.alloc,
            requirements_with(self.problem, name, number),
            |row| self.requirement_formula(name, row),
        )
    }

    /// The directives with this number are kept at the node of the name.
    pub(crate) fn directive_formula(&self, name: &str, number: u64) -> Result<Formula, AllocError>
        ensures { IfOk result (says_by C.condition_of self.now
            (λ problem names. directive_rule problem names number name.now)) }
    {
        let depends = self.depends_formula(name, number)?;
        let conflicts = self.conflicts_formula(name, number)?;
        let most = Formula::both(self.scribe.alloc, depends, conflicts)?;
        let requirements = self.requirements_formula(name, number)?;
        Formula::both(self.scribe.alloc, most, requirements)
    }
}
