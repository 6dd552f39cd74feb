//! Formulas of providers by directives that name several virtuals.
ghost use Rattle.std.specs.Prelude.{◌≡◌, ◌==◌, filter, IfOk};
ghost use Rattle.std.specs.Str.{bytes_eq};
ghost use Rattle.clause_formulas.specs.Rules.{fact, if_so};
ghost use Rattle.graph_formulas.specs.Edges.{of_provider};
ghost use Rattle.graph_formulas.specs.Facts.{provides_as};
ghost use Rattle.graph_formulas.specs.Lists.{settled_test, each_keeps};
ghost use Rattle.problem.specs.Problems.{provides_at};
ghost use Rattle.graph_formulas.specs.Terms.{known_rule};
ghost use Rattle.graph_formulas.specs.Together.{no_other_rule, each_name_rule, by_row_rule, together_rule};
ghost use Rattle.graph_formulas.specs.Words.{names_for};
ghost use Rattle.rule_formulas.specs.Says.{says_of_providers};
ghost use Rattle.rule_formulas.specs.Terms.{plain_term, no_conditions};

use clause_formulas::Formula;
use clause_store::Lit;
use literal_table::LiteralTable;
use plain_data::Word;
use problem::{Problem, provides_at};
use recipe_data::ProvideRow;
use std::alloc::{AllocError, Global};
use word_formulas::{Scribe, each, each_where};

/// A problem, and the literals of what provides its virtuals.
#[derive(Drop)]
struct ProviderBuilder<'a> {
    scribe: Scribe<'a>,
    problem: &'a Problem,
}

impl<'a> ProviderBuilder<'a> {
    /// Where the package provides the virtual, it is this one.
    fn only_formula(
        &self,
        name: &Word,
        virtual_name: &Word,
        choice: &(Word, Lit),
    ) -> Result<Formula, AllocError>
        ensures { IfOk result (says_of_providers self.now (λ problem names.
            if_so (known_rule (fact (provides_as virtual_name.now choice.now.0)))
            (known_rule (settled_test (bytes_eq choice.now.0 name.now))))) }
    {
        let provides = self.scribe.provider_formula(virtual_name, &choice.0)?;
        let same = self.scribe.given(choice.0.as_str() == name.as_str());
        Formula::implies(self.scribe.alloc, provides, same)
    }

    /// The virtual has no provider but this package.
    fn no_other_formula(&self, name: &Word, virtual_name: &Word) -> Result<Formula, AllocError>
        ensures { IfOk result (says_of_providers self.now
            (λ problem names. no_other_rule names name.now virtual_name.now)) }
    {
        each(
            self.scribe.alloc,
            self.scribe.table.packages(virtual_name.as_str()),
            |choice| { self.only_formula(name, virtual_name, choice) },
        )
    }

    /// So it is of each name of the row's directive.
    fn each_name_formula(&self, name: &Word, row: &ProvideRow) -> Result<Formula, AllocError>
        ensures { IfOk result (says_of_providers self.now
            (λ problem names. each_name_rule problem names name.now row.now)) }
    {
        each_where(
            self.scribe.alloc,
            provides_at(self.problem, name.as_str()),
            |other| other.number == row.number,
            |other| self.no_other_formula(name, &other.name),
        )
    }

    /// Where the provider provides the virtual by the row, so it is of each name of its directive.
    fn by_row_formula(
        &self,
        virtual_name: &Word,
        provider: &Word,
        row: &ProvideRow,
    ) -> Result<Formula, AllocError>
        ensures { IfOk result (says_of_providers self.now (λ problem names.
            by_row_rule problem names (virtual_name.now, provider.now) row.now)) }
    {
        let world = self.problem.world();
        let name = provider.as_str();
        let asked = virtual_name.as_str();
        let by_row = self
            .scribe
            .provide_row_formula(&world, name, asked, &None, row)?;
        let together = self.each_name_formula(provider, row)?;
        Formula::implies(self.scribe.alloc, by_row, together)
    }

    /// So it is by each row of the provider that names the virtual.
    fn rows_together(&self, virtual_name: &Word, provider: &Word) -> Result<Formula, AllocError>
        ensures { IfOk result (says_of_providers self.now (λ problem names.
            each_keeps (by_row_rule problem names (virtual_name.now, provider.now))
            (filter (λ row. bytes_eq row.name virtual_name.now)
            (provides_at problem provider.now)))) }
    {
        each_where(
            self.scribe.alloc,
            provides_at(self.problem, provider.as_str()),
            |row| row.name.as_str() == virtual_name.as_str(),
            |row| self.by_row_formula(virtual_name, provider, row),
        )
    }

    /// What the rule asks of a virtual's provider.
    fn provider_together(&self, virtual_name: &Word, provider: &Word) -> Result<Formula, AllocError>
        ensures { IfOk result (says_of_providers self.now (λ problem names.
            together_rule problem names (virtual_name.now, provider.now))) }
    {
        if self.problem.settings().provided_together {
            self.rows_together(virtual_name, provider)
        } else {
            Ok(self.scribe.given(true))
        }
    }

    /// Where the package provides the virtual, so it does what its directive names besides.
    fn choice_formula(
        &self,
        virtual_name: &Word,
        choice: &(Word, Lit),
    ) -> Result<Formula, AllocError>
        ensures { IfOk result (says_of_providers self.now (λ problem names.
            if_so (known_rule (fact (provides_as virtual_name.now choice.now.0)))
            (together_rule problem names (virtual_name.now, choice.now.0)))) }
    {
        let provides = self.scribe.provider_formula(virtual_name, &choice.0)?;
        let together = self.provider_together(virtual_name, &choice.0)?;
        Formula::implies(self.scribe.alloc, provides, together)
    }
}

/// Where the settings ask for it, the provider of the virtual by a directive is that of each other
/// name of the directive that has one.
pub fn together_formula(
    alloc: Global,
    problem: &Problem,
    table: &LiteralTable,
    virtual_name: &Word,
) -> Result<Formula, AllocError>
    ensures { IfOk result (λ formula. formula ≡ plain_term table.now no_conditions
        (of_provider (names_for table.now) (together_rule problem.now (names_for table.now))
        virtual_name.now)) }
{
    let builder = ProviderBuilder {
        scribe: Scribe { alloc, table },
        problem,
    };
    each(alloc, table.packages(virtual_name.as_str()), |choice| {
        builder.choice_formula(virtual_name, choice)
    })
}
