// Formulas of directives, where their conditions have formulas.
ghost use Rattle.std.specs.Prelude.{◌≡◌, IfOk};
ghost use Rattle.clause_formulas.specs.Rules.{fact};
ghost use Rattle.clause_formulas.specs.Statements.{implication_of};
ghost use Rattle.graph_formulas.specs.Facts.{has_edge, has_virtual};
ghost use Rattle.graph_formulas.specs.Parts.{suits_rule};
ghost use Rattle.graph_formulas.specs.Words.{names_for};
ghost use Rattle.graph_formulas.specs.Directives.{answer_rule, edge_to, suits_asked};
ghost use Rattle.word_formulas.specs.Builders.{plain_said};
ghost use Rattle.word_formulas.specs.Says.{says};

use crate::scribe::Scribe;
use clause_formulas::Formula;
use condition_rules::World;
use plain_data::Word;
use problem::Problem;
use recipe_data::DependRow;
use spec_grammar::Part;
use std::alloc::AllocError;

impl<'a> Scribe<'a> {
    /// The edge to the child has the kinds of the row, and names the virtual that it asks for.
    fn answer_formula(
        &self,
        problem: &Problem,
        name: &str,
        row: &DependRow,
        asked: &Word,
        child: &Word,
    ) -> Result<Formula, AllocError>
        ensures { IfOk result (says self.now (answer_rule problem.now
            (names_for self.now.table.now) name.now row.now asked.now child.now)) }
    {
        let world = problem.world();
        let edge = self.has_edge(name, child.as_str(), &row.kinds)?;
        if !world.is_virtual(asked.as_str()) {
            return Ok(edge);
        }
        let names = self.has_virtual(name, child.as_str(), asked.as_str())?;
        Formula::both(self.alloc, edge, names)
    }

    /// An edge with the kinds of the row, which names the virtual that it asks for, goes to the
    /// node that it asks for.
    pub fn edge_to_formula(
        &self,
        problem: &Problem,
        name: &str,
        row: &DependRow,
    ) -> Result<Formula, AllocError>
        ensures { IfOk result (says self.now (edge_to problem.now
            (names_for self.now.table.now) name.now row.now)) }
    {
        let world = problem.world();
        match &row.part.name {
            Some(asked) => self.asked_formula(&world, asked, |child| {
                self.answer_formula(problem, name, row, asked, child)
            }),
            None => Ok(self.given(false)),
        }
    }

    /// The part, which has this name, holds at the node.
    pub fn suits_formula(
        &self,
        world: &World,
        part: &Part,
        asked: &Word,
        name: &Word,
    ) -> Result<Formula, AllocError>
        ensures { IfOk result (says self.now (suits_rule world.now part.now asked.now name.now)) }
    {
        if world.is_virtual(asked.as_str()) {
            let provides = self.provides_formula(
                world,
                name.as_str(),
                asked.as_str(),
                &part.versions,
            )?;
            let rest = self.rest_formula(world, name.as_str(), part)?;
            Formula::both(self.alloc, provides, rest)
        } else {
            self.meets_formula(world, name.as_str(), part)
        }
    }

    /// The node that the row asks for suits it.
    pub fn suits_asked_formula(
        &self,
        problem: &Problem,
        row: &DependRow,
    ) -> Result<Formula, AllocError>
        ensures { IfOk result (says self.now (suits_asked problem.now
            (names_for self.now.table.now) row.now)) }
    {
        let world = problem.world();
        match &row.part.name {
            Some(asked) => self.asked_formula(&world, asked, |name| {
                self.suits_formula(&world, &row.part, asked, name)
            }),
            None => Ok(self.given(false)),
        }
    }

    /// Where the condition of the row is met, its edge is there.
    pub fn edge_formula(
        &self,
        problem: &Problem,
        name: &str,
        row: &DependRow,
        met: Formula,
    ) -> Result<Formula, AllocError>
        ensures { IfOk result (λ formula. formula ≡ implication_of met
            (plain_said self.now.table.now (edge_to problem.now
            (names_for self.now.table.now) name.now row.now))) }
    {
        let edge = self.edge_to_formula(problem, name, row)?;
        Formula::implies(self.alloc, met, edge)
    }

    /// Where the condition of the row is met, the node that it asks for suits it.
    pub fn constraint_formula(
        &self,
        problem: &Problem,
        row: &DependRow,
        met: Formula,
    ) -> Result<Formula, AllocError>
        ensures { IfOk result (λ formula. formula ≡ implication_of met
            (plain_said self.now.table.now (suits_asked problem.now
            (names_for self.now.table.now) row.now))) }
    {
        let suits = self.suits_asked_formula(problem, row)?;
        Formula::implies(self.alloc, met, suits)
    }
}
