// Formulas of the node that a name asks for.
ghost use Rattle.std.specs.Prelude.{◌≡◌, IfOk, map};
ghost use Rattle.clause_formulas.specs.Rules.{fact};
ghost use Rattle.graph_formulas.specs.Facts.{provides_as};
ghost use Rattle.graph_formulas.specs.Parts.{asked_rule};
ghost use Rattle.graph_formulas.specs.Words.{names_for};
ghost use Rattle.word_formulas.specs.Asked.{NodeRule, keeping_said};
ghost use Rattle.word_formulas.specs.Builders.{Builds, plain_said};
ghost use Rattle.word_formulas.specs.Says.{says};

use crate::scribe::Scribe;
use clause_formulas::Formula;
use clause_store::Lit;
use condition_rules::World;
use literal_table::any_choice;
use plain_data::Word;
use std::alloc::AllocError;

impl<'a> Scribe<'a> {
    /// The package of this name provides the virtual.
    pub fn provides_as(&self, virtual_name: &str, name: &str) -> Result<Formula, AllocError>
        ensures { IfOk result (says self.now (fact (provides_as virtual_name.now name.now))) }
    {
        any_choice(self.alloc, self.table.packages(virtual_name), |package| {
            package.as_str() == name
        })
    }

    /// The package provides the virtual.
    pub fn provider_formula(&self, virtual_name: &Word, name: &Word) -> Result<Formula, AllocError>
        ensures { IfOk result (says self.now (fact (provides_as virtual_name.now name.now))) }
    {
        self.provides_as(virtual_name.as_str(), name.as_str())
    }

    /// Of each package that may provide the virtual: it does, and its node keeps the rule.
    fn keeping_providers<F: Fn(&Word) -> Result<Formula, AllocError>>(
        &self,
        virtual_name: &Word,
        packages: &[(Word, Lit)],
        rule: F,
    ) -> Result<Vec<Formula>, AllocError>
        requires { F.IsAlwaysCallable rule }
        ensures { (keeps : NodeRule) → Builds F.Fn (λ n. plain_said self.now.table.now
            (keeps n)) rule → IfOk result (λ parts. parts.items ≡ map
            (keeping_said self.now.table.now virtual_name.now keeps) packages.now) }
    {
        let mut parts = Vec::new(self.alloc);
        for choice in packages {
            let provides = self.provider_formula(virtual_name, &choice.0)?;
            let kept = rule(&choice.0)?;
            let both = Formula::both(self.alloc, provides, kept)?;
            parts.push(both)?;
        }
        Ok(parts)
    }

    /// The node that a name asks for keeps a rule.
    pub(crate) fn asked_formula<F: Fn(&Word) -> Result<Formula, AllocError>>(
        &self,
        world: &World,
        asked: &Word,
        rule: F,
    ) -> Result<Formula, AllocError>
        requires { F.IsAlwaysCallable rule }
        ensures { (keeps : NodeRule) → Builds F.Fn (λ n. plain_said self.now.table.now
            (keeps n)) rule → IfOk result (says self.now
            (asked_rule world.now (names_for self.now.table.now) asked.now keeps)) }
    {
        if world.is_virtual(asked.as_str()) {
            let packages = self.table.packages(asked.as_str());
            let parts = self.keeping_providers(asked, packages, rule)?;
            Ok(Formula::any(parts))
        } else {
            rule(asked)
        }
    }
}
