//! The rules of roots and of providers.
ghost use Rattle.std.specs.Prelude.{◌≡◌, ◌++◌, [], IfOk, OnOk, unwrap_or};
ghost use Rattle.graph_rules.specs.Verdict.{broken_roots, broken_providers};
ghost use Rattle.graph_judge.specs.Places.{keeps_root_at, provider_test, providers_places};

use crate::asked::NamedDemand;
use crate::judging::Judge;
use crate::places::add_unless;
use plain_data::Word;
use spec_grammar::Spec;
use std::alloc::AllocError;

fn name_of(spec: &Spec) -> &str
    ensures { result.now ≡ unwrap_or spec.now.top.name [] }
{
    match &spec.top.name {
        Some(name) => name.as_str(),
        None => "",
    }
}

/// The rules that are said of each provider.
#[derive(Debug, Clone, Copy, PartialEq, Eq)]
pub(crate) enum ProviderRule {
    Provider,
    UnusedProvider,
    Together,
}

impl<'a> Judge<'a> {
    // ---- roots

    fn keeps_root_at(&self, place: u64, spec: &Spec) -> Result<bool, AllocError>
        ensures { IfOk result (λ kept. kept ≡ keeps_root_at self.now place spec.now) }
    {
        if !self.asks(NamedDemand::Root(place)) {
            return Ok(true);
        }
        self.checks.keeps_root(spec)
    }

    /// The roots that are broken.
    pub(crate) fn root_places(&self, roots: &[Spec]) -> Result<Vec<(Word, u64)>, AllocError>
        ensures { IfOk result (λ places. places.items
            ≡ broken_roots (keeps_root_at self.now) 0 roots.now) }
    {
        let mut places = Vec::new(self.alloc());
        for place in 0..roots.len() {
            let spec = &roots[place];
            let kept = self.keeps_root_at(place as u64, spec)?;
            add_unless(self.alloc(), &mut places, kept, name_of(spec), place as u64)?;
        }
        Ok(places)
    }

    // ---- providers

    fn keeps_of_provider(&self, rule: ProviderRule, provider: &(Word, Word)) -> bool
        ensures { result ≡ provider_test rule self.now.problem self.now.graph provider.now }
    {
        match rule {
            ProviderRule::Provider => self.checks.keeps_provider(provider),
            ProviderRule::UnusedProvider => self.checks.keeps_used(provider),
            ProviderRule::Together => self.checks.keeps_together(provider),
        }
    }

    fn add_providers(
        &self,
        places: &mut Vec<(Word, u64)>,
        rule: ProviderRule,
        providers: &[(Word, Word)],
    ) -> Result<(), AllocError>
        ensures { OnOk result (places.new.items ≡ places.old.items
            ++ providers_places (provider_test rule self.now.problem self.now.graph) providers.now) }
    {
        for provider in providers {
            let kept = self.keeps_of_provider(rule, provider);
            add_unless(self.alloc(), places, kept, provider.0.as_str(), 0)?;
        }
        Ok(())
    }

    /// The virtuals whose provider breaks the rule.
    pub(crate) fn provider_places(&self, rule: ProviderRule) -> Result<Vec<(Word, u64)>, AllocError>
        ensures { IfOk result (λ places. places.items
            ≡ broken_providers (provider_test rule self.now.problem self.now.graph) self.now.graph) }
    {
        let mut places = Vec::new(self.alloc());
        self.add_providers(&mut places, rule, self.providers())?;
        Ok(places)
    }
}
