// Names that are a recipe's and are provided.
ghost use Rattle.std.specs.Prelude.{◌≡◌, None, find, IfOk, OnOk, IfErr};
ghost use Rattle.std.specs.Option.{option_copied};
ghost use Rattle.virtuals.specs.Virtuals.{AreProviders, IsProvidersFault, clash, has_pair};
ghost use Rattle.virtuals.specs.declared.clash.ProvidersFault.TheVariants.{OutOfMemory};

use crate::Providers;
use plain_data::{Duplicate, Word};
use recipe_data::Recipe;
use std::alloc::{AllocError, Global};
use thiserror::Error;

/// Why recipes have no table of providers.
#[derive(Debug, Drop, Error)]
pub enum ProvidersFault {
    /// The first recipe's name that some recipe provides.
    #[error("{0} is a package and a virtual")]
    NameClash(Word),
    #[error("out of memory")]
    OutOfMemory,
}

impl From<AllocError> for ProvidersFault {
    ghost from_gives = { λ _ fault. fault ≡ OutOfMemory };

    fn from(_: AllocError) -> ProvidersFault {
        ProvidersFault::OutOfMemory
    }
}

impl Providers {
    /// What these recipes provide, unless the name of one of them is provided.
    pub fn new(alloc: Global, recipes: &[Recipe]) -> Result<Providers, ProvidersFault>
        ensures providers { IfOk result (AreProviders recipes.now) }
        ensures apart { OnOk result (clash recipes.now ≡ None) }
        ensures fault { IfErr result (IsProvidersFault recipes.now) }
    {
        let providers = Providers::of_recipes(alloc, recipes)?;
        match first_clash(&providers, recipes) {
            Some(recipe) => Err(ProvidersFault::NameClash(recipe.name.duplicate(alloc)?)),
            None => Ok(providers),
        }
    }
}

fn first_clash<'a>(providers: &Providers, recipes: &'a [Recipe]) -> Option<&'a Recipe>
    requires { AreProviders recipes.now providers.now }
    ensures { option_copied result ≡ clash recipes.now }
{
    first_provided(providers, recipes)
}

fn first_provided<'a>(providers: &Providers, recipes: &'a [Recipe]) -> Option<&'a Recipe>
    ensures { option_copied result
        ≡ find (λ recipe. has_pair providers.now recipe.name) recipes.now }
{
    recipes
        .iter()
        .find(|recipe| providers.is_virtual(recipe.name.as_str()))
}
