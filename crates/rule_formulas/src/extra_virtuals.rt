//! Formulas of virtuals on edges that none asks for.
ghost use Rattle.std.specs.Prelude.{filter, IfOk};
ghost use Rattle.problem.specs.Problems.{depends_at};
ghost use Rattle.graph_formulas.specs.Lists.{each_keeps, some as some_rule};
ghost use Rattle.graph_formulas.specs.Terms.{met_rule};
ghost use Rattle.graph_formulas.specs.Edges.{names_virtual, virtual_rule};
ghost use Rattle.graph_formulas.specs.Laws.{virtuals_on};
ghost use Rattle.rule_formulas.specs.SaysEdges.{says_named};

use crate::extra_edges::EdgeBuilder;
use clause_formulas::Formula;
use clause_store::Lit;
use plain_data::Word;
use std::alloc::AllocError;
use word_formulas::{MetConditions, Scribe, each, some};

impl<'a, 'r, C: MetConditions> EdgeBuilder<'a, 'r, C> {
    /// A row of the name that asks for the virtual is met.
    fn rows_formula(&self, virtual_name: &str) -> Result<Formula, AllocError>
        ensures { IfOk result (says_named C.condition_of self.now
            (λ problem names name. some_rule (λ row. met_rule name row.when)
            (filter (names_virtual problem virtual_name.now) (depends_at problem name)))) }
    {
        let name = self.named.name();
        let asking = self.named.asking(self.scribe.alloc, virtual_name)?;
        some(
            self.scribe.alloc,
            asking.as_slice(),
            |row| self.conditions.met(self.scribe.alloc, name, &row.when),
        )
    }

    /// Where the edge names the virtual, the child is its provider, and some row that holds asks
    /// for it.
    fn virtual_formula(&self, child: &str, choice: &(Word, Lit)) -> Result<Formula, AllocError>
        ensures { IfOk result (says_named C.condition_of self.now
            (λ problem names name. virtual_rule problem names name child.now choice.now.0)) }
    {
        let name = self.named.name();
        let virtual_name = choice.0.as_str();
        let named = self.scribe.has_virtual(name, child, virtual_name)?;
        let provides = self.scribe.provides_as(virtual_name, child)?;
        let met = self.rows_formula(virtual_name)?;
        let asked = Formula::both(self.scribe.alloc, provides, met)?;
        Formula::implies(self.scribe.alloc, named, asked)
    }

    /// No virtual on the edge is one that none of the rows asks for.
    pub(crate) fn virtuals_formula(&self, child: &str) -> Result<Formula, AllocError>
        ensures { IfOk result (says_named C.condition_of self.now
            (λ problem names name. each_keeps (virtual_rule problem names name child.now)
            (virtuals_on self.now.scribe.table.now name child.now))) }
    {
        let virtuals = self.scribe.table.virtuals(self.named.name(), child);
        each(
            self.scribe.alloc,
            virtuals,
            |choice| self.virtual_formula(child, choice),
        )
    }
}
