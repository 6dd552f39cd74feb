// What conditions are read against.
ghost use Rattle.std.specs.Prelude.{◌≡◌};
ghost use Rattle.std.specs.Option.{option_copied};
ghost use Rattle.virtuals.specs.Provided.{naming, AreRowsOf};
ghost use Rattle.virtuals.specs.Virtuals.{AreInOrder, AreProviders, is_virtual};
ghost use Rattle.condition_rules.specs.Worlds.{recipe_of, rows};

use keyed_lists::place_of;
use std::marker::Model;
use target_table::TargetTable;
use virtuals::{ProvideRow, ProvidedRows, Providers, Recipe, find};

/// The machine's platform, the targets, and the recipes in byte order of names, each name once.
#[derive(Drop)]
pub struct World<'a> {
    platform: &'a str,
    targets: &'a TargetTable,
    recipes: &'a [Recipe],
    providers: &'a Providers,
    provided: &'a ProvidedRows,
}

impl<'a> Model for World<'a> {
    ghost use Rattle.virtuals.specs.Provided.{AreRowsOf};
    ghost use Rattle.virtuals.specs.Virtuals.{AreInOrder, AreProviders};
    ghost use Rattle.condition_rules.specs.Worlds.{World};

    ghost Value = { World };

    ghost view = { λ w. record { platform = w.platform.now; targets = w.targets.now; recipes = w.recipes.now } };

    ghost invariant = { λ w. record { order : AreInOrder w.recipes.now; providers : AreProviders w.recipes.now w.providers.now; provided : AreRowsOf w.recipes.now w.provided.now } };
}

impl<'a> World<'a> {
    /// The world of these recipes, and of what they provide, by virtuals and by packages.
    pub fn new(
        platform: &'a str,
        targets: &'a TargetTable,
        recipes: &'a [Recipe],
        providers: &'a Providers,
        provided: &'a ProvidedRows,
    ) -> World<'a>
        requires order { AreInOrder recipes.now }
        requires providers { AreProviders recipes.now providers.now }
        requires provided { AreRowsOf recipes.now provided.now }
        ensures { result ≡ record {
          platform = platform.now;
          targets = targets.now;
          recipes =
              recipes.now;
        } }
    {
        World {
            platform,
            targets,
            recipes,
            providers,
            provided,
        }
    }

    /// The machine's platform.
    pub fn platform(&self) -> &'a str
        ensures { result.now ≡ self.now.platform }
    {
        self.platform
    }

    /// The targets.
    pub fn targets(&self) -> &'a TargetTable
        ensures { result.now ≡ self.now.targets }
    {
        self.targets
    }

    /// The recipe of a package.
    #[tactic(auto, unfolding(crate::specs::Worlds::recipe_of))]
    pub fn recipe(&self, name: &str) -> Option<&'a Recipe>
        ensures { option_copied result ≡ recipe_of self.now name.now }
    {
        find(self.recipes, name)
    }

    /// Whether some recipe provides the name.
    pub fn is_virtual(&self, name: &str) -> bool
        ensures { result ≡ is_virtual self.now.recipes name.now }
    {
        self.providers.is_virtual(name)
    }
    /// The rows of `provides` of a package that name the virtual, in the order of its recipe.
    ///
    /// Takes three binary searches.
    pub fn provided(&self, name: &str, virtual_name: &str) -> &'a [ProvideRow]
        ensures { result.now ≡ naming virtual_name.now
            (rows (λ recipe. recipe.provides) (recipe_of self.now name.now)) }
    {
        match place_of(self.recipes, name) {
            Ok(place) => self.provided.naming(place, virtual_name),
            Err(_) => &[],
        }
    }
}
