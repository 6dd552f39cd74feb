//! A problem.
ghost use Rattle.std.specs.Prelude.{◌≡◌, ◌<◌, true, length, slice_get, IfOk, Some};
ghost use Rattle.std.specs.Option.{option_copied};
ghost use Rattle.condition_rules.specs.OfVirtuals.Provided.{AreRowsOf};
ghost use Rattle.condition_rules.specs.OfVirtuals.Virtuals.{AreInOrder, AreProviders};
ghost use Rattle.problem.specs.Assembled.{is_assembled};
ghost use Rattle.problem.specs.Demands.{demands};
ghost use Rattle.problem.specs.Problems.{each_alone, world_of};
ghost use Rattle.problem.specs.Required.{AreNamedRows};

use crate::Demand;
use condition_rules::{ProvidedRows, Providers, Recipe, Spec, World};
use plain_data::{Duplicate, List, Word};
use recipe_data::RequireRow;
use reuse_db::Database;
use site_settings::Settings;
use std::alloc::{AllocError, Global};
use std::marker::Model;
use std::sync::Arc;

/// All that does not depend on the requested specs. The problems of one repository share it.
#[derive(Drop)]
pub(crate) struct Shared {
    pub(crate) recipes: List<Recipe>,
    pub(crate) settings: Settings,
    pub(crate) database: Database,
    /// What the recipes provide.
    pub(crate) providers: Providers,
    /// The same, by packages.
    pub(crate) provided: ProvidedRows,
    /// What may be demanded of a graph where so many specs are requested.
    pub(crate) demands: List<Demand>,
    /// How many these are.
    pub(crate) most: usize,
    /// What the settings ask of their packages, in byte order of the names.
    pub(crate) required: List<(Word, List<RequireRow>)>,
}

/// All that decides which graphs are valid and what they cost.
#[derive(Drop)]
pub struct Problem {
    pub(crate) shared: Arc<Shared>,
    /// The requested specs, at most as many as those of the demands.
    pub(crate) roots: List<Spec>,
}

impl Model for Problem {
    ghost use Rattle.std.specs.Prelude.{◌≡◌, ◌≤◌, true, length};
    ghost use Rattle.std.specs.Arc.{arc_value};
    ghost use Rattle.condition_rules.specs.OfVirtuals.Provided.{AreRowsOf};
    ghost use Rattle.condition_rules.specs.OfVirtuals.Virtuals.{AreInOrder, AreProviders};
    ghost use Rattle.problem.specs.Assembled.{is_assembled};
    ghost use Rattle.problem.specs.Demands.{AreDemandsOfMost};
    ghost use Rattle.problem.specs.Problems.{Problem, problem_of};
    ghost use Rattle.problem.specs.Required.{AreNamedRows};

    ghost Value = { Problem };

    ghost view = { λ p. let s = arc_value p.shared in problem_of s.recipes s.settings s.database p.roots };

    ghost invariant = { λ p. let s = arc_value p.shared in record { order : AreInOrder s.recipes; right : is_assembled (problem_of s.recipes s.settings s.database p.roots) ≡ true; providers : AreProviders s.recipes s.providers; provided : AreRowsOf s.recipes s.provided; asked : AreDemandsOfMost s.most s.recipes s.settings.packages s.demands; few : length p.roots ≤ s.most; required : AreNamedRows s.settings.packages s.required } };
}

impl Problem {
    /// The recipes, in byte order of names.
    pub fn recipes(&self) -> &[Recipe]
        ensures recipes { result.now ≡ self.now.recipes }
        ensures order { AreInOrder self.now.recipes }
        ensures right { is_assembled self.now ≡ true }
    {
        self.shared.recipes.as_slice()
    }

    /// The settings.
    pub fn settings(&self) -> &Settings
        ensures { result.now ≡ self.now.settings }
    {
        &self.shared.settings
    }

    /// What is installed.
    pub fn database(&self) -> &Database
        ensures { result.now ≡ self.now.database }
    {
        &self.shared.database
    }

    /// The requested specs.
    pub fn roots(&self) -> &[Spec]
        ensures { result.now ≡ self.now.roots }
    {
        self.roots.as_slice()
    }

    /// What the recipes provide.
    pub fn providers(&self) -> &Providers
        ensures { AreProviders self.now.recipes result.now }
    {
        &self.shared.providers
    }

    /// What each recipe provides.
    pub(crate) fn provided(&self) -> &ProvidedRows
        ensures { AreRowsOf self.now.recipes result.now }
    {
        &self.shared.provided
    }

    /// What its conditions are read against.
    pub fn world(&self) -> World<'_>
        ensures { result ≡ world_of self.now }
    {
        World::new(
            self.settings().platform.as_str(),
            &self.settings().targets,
            self.recipes(),
            self.providers(),
            self.provided(),
        )
    }

    /// What the settings ask of their packages, as rows.
    pub(crate) fn required(&self) -> &[(Word, List<RequireRow>)]
        ensures { AreNamedRows self.now.settings.packages result.now }
    {
        self.shared.required.as_slice()
    }

    /// How many demands there are: the roots in order, then the directives by package and number,
    /// and then the requirements of the settings by package and place.
    pub fn demands(&self) -> u64
        ensures { result ≡ length (demands self.now) }
    {
        let fewer = self.shared.most - self.roots.len();
        (self.shared.demands.len() - fewer) as u64
    }

    /// The demand of this number, from 0. Those behind the roots stand behind the most roots.
    pub fn demand(&self, id: u64) -> Option<&Demand>
        ensures { option_copied result ≡ slice_get (demands self.now) id }
    {
        let (list, roots) = (self.shared.demands.as_slice(), self.roots.len());
        if id < roots as u64 {
            return list.get(id as usize);
        }
        let (_, later) = list.split_at(self.shared.most - roots);
        later.get(id as usize)
    }

    /// The problem that has one of the requested specs as its only one. It takes memory for that
    /// spec alone.
    #[tactic(auto, using(crate::proofs::AssembledLaws::alone_assembled, crate::proofs::AssembledLaws::apart_at))]
    pub fn alone(&self, alloc: Global, place: usize) -> Result<Problem, AllocError>
        requires { place < length self.now.roots }
        ensures { IfOk result (λ one. slice_get (each_alone self.now) place ≡ Some one) }
    {
        let mut roots = List::new(alloc);
        roots.push(self.roots.as_slice()[place].duplicate(alloc)?)?;
        Ok(Problem {
            shared: Arc::try_clone(&self.shared)?,
            roots,
        })
    }
}
