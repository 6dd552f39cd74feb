//! Formulas of the specs of a requirement.
ghost use Rattle.std.specs.Prelude.{◌≡◌, ◌++◌, ◌∷◌, ◌/◌, [], length, IfOk, OnOk};
ghost use Rattle.clause_formulas.specs.Statements.{any_statement, all_statements};
ghost use Rattle.graph_formulas.specs.Lists.{some, first_rules, apart_rules, halves_rule, few_rules, just_one};
ghost use Rattle.graph_formulas.specs.Parts.{holds_rule};
ghost use Rattle.rule_formulas.specs.Says.{says, says_apart, all_said};

use crate::spec_builder::SpecBuilder;
use clause_formulas::Formula;
use spec_grammar::Spec;
use std::alloc::{AllocError, Global};
use word_formulas::some;

/// How many specs are kept apart one by one.
const SHORT: usize = 8;

fn either(alloc: Global, first: Formula, second: Formula) -> Result<Formula, AllocError>
    ensures { IfOk result (λ formula. formula ≡ any_statement (first ∷ second ∷ [])) }
{
    let mut parts = Vec::new(alloc);
    parts.push(first)?;
    parts.push(second)?;
    Ok(Formula::any(parts))
}

impl<'a, 'l, 'w> SpecBuilder<'a, 'l, 'w> {
    /// Some spec holds at the node of the name.
    pub(crate) fn some_formula(&self, name: &str, specs: &[Spec]) -> Result<Formula, AllocError>
        ensures { IfOk result (says self.now
            (λ world names. some (holds_rule world names name.now) specs.now)) }
    {
        some(
            self.scribe.alloc,
            specs,
            |spec| self.holds_formula(name, spec),
        )
    }

    /// None of these specs holds, or none of those.
    fn halves_formula(
        &self,
        name: &str,
        front: &[Spec],
        back: &[Spec],
    ) -> Result<Formula, AllocError>
        ensures { IfOk result (says self.now
            (λ world names. halves_rule (holds_rule world names name.now) front.now back.now)) }
    {
        let first = self.some_formula(name, front)?;
        let second = self.some_formula(name, back)?;
        either(self.scribe.alloc, first.negated(), second.negated())
    }

    /// The spec does not hold, or none of the others does.
    fn first_formula(&self, name: &str, spec: &Spec, rest: &[Spec]) -> Result<Formula, AllocError>
        ensures { IfOk result (says_apart self.now
            (λ world names. holds_rule world names name.now) spec.now rest.now) }
    {
        let first = self.holds_formula(name, spec)?;
        let others = self.some_formula(name, rest)?;
        either(self.scribe.alloc, first.negated(), others.negated())
    }

    #[tactic(auto, using(crate::proofs::Few::first_none, crate::proofs::Few::first_some))]
    fn push_first(
        &self,
        parts: &mut Vec<Formula>,
        name: &str,
        spec: &Spec,
        rest: &[Spec],
    ) -> Result<(), AllocError>
        ensures { OnOk result (parts.new.items ≡ parts.old.items ++ all_said self.now
            (λ world names. first_rules (holds_rule world names name.now) spec.now rest.now)) }
    {
        if rest.len() != 0 {
            parts.push(self.first_formula(name, spec, rest)?)?;
        }
        Ok(())
    }

    /// Of each spec and those behind it.
    #[tactic(auto, using(crate::proofs::Few::apart_step))]
    fn push_apart(
        &self,
        parts: &mut Vec<Formula>,
        name: &str,
        specs: &[Spec],
    ) -> Result<(), AllocError>
        ensures { OnOk result (parts.new.items ≡ parts.old.items ++ all_said self.now
            (λ world names. apart_rules (holds_rule world names name.now) specs.now)) }
    {
        for (i, spec) in specs.iter().enumerate() {
            self.push_first(parts, name, spec, &specs[i + 1..])?;
        }
        Ok(())
    }

    /// No two specs hold. It calls itself for each half, so as deep as the logarithm of the list's
    /// length.
    fn push_few(
        &self,
        parts: &mut Vec<Formula>,
        name: &str,
        specs: &[Spec],
        times: usize,
    ) -> Result<(), AllocError>
        ensures { OnOk result (parts.new.items ≡ parts.old.items ++ all_said self.now
            (λ world names. few_rules times (holds_rule world names name.now) specs.now)) }
    {
        if times == 0 {
            return self.push_apart(parts, name, specs);
        }
        if specs.len() <= SHORT {
            return self.push_apart(parts, name, specs);
        }
        let half = specs.len() / 2;
        parts.push(self.halves_formula(name, &specs[..half], &specs[half..])?)?;
        self.push_few(parts, name, &specs[..half], times - 1)?;
        self.push_few(parts, name, &specs[half..], times - 1)?;
        Ok(())
    }

    /// No two specs hold at the node of the name.
    fn few_formula(&self, name: &str, specs: &[Spec]) -> Result<Formula, AllocError>
        ensures { IfOk result (λ formula. formula ≡ all_statements (all_said self.now
            (λ world names. few_rules (length specs.now / 8) (holds_rule world names name.now)
            specs.now))) }
    {
        let mut parts = Vec::new(self.scribe.alloc);
        self.push_few(&mut parts, name, specs, specs.len() / SHORT)?;
        Formula::all(self.scribe.alloc, parts)
    }

    /// Exactly one spec holds at the node of the name.
    pub(crate) fn one_formula(&self, name: &str, specs: &[Spec]) -> Result<Formula, AllocError>
        ensures { IfOk result (says self.now
            (λ world names. just_one (holds_rule world names name.now) specs.now)) }
    {
        let some = self.some_formula(name, specs)?;
        let few = self.few_formula(name, specs)?;
        Formula::both(self.scribe.alloc, some, few)
    }
}
