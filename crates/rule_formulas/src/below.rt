//! Formulas of what a spec asks of the packages that its node depends on.
ghost use Rattle.std.specs.Prelude.{IfOk};
ghost use Rattle.clause_formulas.specs.Rules.{fact, both_of};
ghost use Rattle.graph_formulas.specs.Facts.{provides_as};
ghost use Rattle.graph_formulas.specs.Parts.{asked_rule, below_rule};
ghost use Rattle.rule_formulas.specs.Paths.{reached_rule};
ghost use Rattle.rule_formulas.specs.Says.{says};

use crate::spec_builder::SpecBuilder;
use clause_formulas::Formula;
use clause_store::Lit;
use plain_data::Word;
use spec_grammar::Part;
use std::alloc::AllocError;
use word_formulas::{Scribe, some};

impl<'a, 'l, 'w> SpecBuilder<'a, 'l, 'w> {
    /// The part holds at the node of a name, and a path leads to it.
    fn reached_formula(
        &self,
        from: &str,
        part: &Part,
        asked: &Word,
        name: &Word,
    ) -> Result<Formula, AllocError>
        ensures { IfOk result (says self.now
            (λ world names. reached_rule world from.now part.now asked.now name.now)) }
    {
        let suits = self.scribe.suits_formula(self.world, part, asked, name)?;
        let path = self
            .paths
            .path(self.scribe.alloc, self.scribe.table, from, name.as_str());
        Formula::both(self.scribe.alloc, suits, path)
    }

    /// The package of a choice provides the virtual, the part holds at its node, and a path leads
    /// to it.
    fn provided_formula(
        &self,
        from: &str,
        part: &Part,
        asked: &Word,
        choice: &(Word, Lit),
    ) -> Result<Formula, AllocError>
        ensures { IfOk result (says self.now
            (λ world names. both_of (fact (provides_as asked.now choice.now.0))
            (reached_rule world from.now part.now asked.now choice.now.0))) }
    {
        let provides = self.scribe.provider_formula(asked, &choice.0)?;
        let reached = self.reached_formula(from, part, asked, &choice.0)?;
        Formula::both(self.scribe.alloc, provides, reached)
    }

    /// The part holds at the node that its name asks for, and a path leads to it.
    fn asked_formula(&self, from: &str, part: &Part, asked: &Word) -> Result<Formula, AllocError>
        ensures { IfOk result (says self.now (λ world names. asked_rule world names asked.now
            (reached_rule world from.now part.now asked.now))) }
    {
        if self.world.is_virtual(asked.as_str()) {
            some(
                self.scribe.alloc,
                self.scribe.table.packages(asked.as_str()),
                |choice| { self.provided_formula(from, part, asked, choice) },
            )
        } else {
            self.reached_formula(from, part, asked, asked)
        }
    }

    /// The part holds at a node to which a path leads.
    pub(crate) fn below_formula(&self, from: &str, part: &Part) -> Result<Formula, AllocError>
        ensures { IfOk result (says self.now
            (λ world names. below_rule world names from.now part.now)) }
    {
        match &part.name {
            Some(asked) => self.asked_formula(from, part, asked),
            None => Ok(self.scribe.given(false)),
        }
    }
}
