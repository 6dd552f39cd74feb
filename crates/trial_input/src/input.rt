//! The files of an input.

ghost use Rattle.std.specs.Prelude.{◌≡◌, ◌≤◌, ◌+◌, [], IfOk, OnOk};
ghost use Rattle.std.specs.String.{string_bytes};
ghost use Rattle.trial_input.specs.Inputs.{trial_recipe_path, with_recipes, input_files};
ghost use Rattle.trial_input.specs.Recipes.{recipe};

use crate::draws::Draws;
use crate::recipes::write_recipe;
use outside_desk::SteadyDesk;
use std::alloc::{AllocError, Global};

#[tactic(auto, unfolding(crate::specs::Inputs::trial_recipe_path))]
fn recipe_path(alloc: Global, own: u64) -> Result<String, AllocError>
    ensures { IfOk result (λ path. string_bytes path ≡ trial_recipe_path own) }
{
    format!(in alloc; "repo/packages/p{own}/package.py")
}

/// The text of a recipe.
fn recipe_text(
    alloc: Global,
    packages: u64,
    own: u64,
    draws: &mut Draws,
) -> Result<Vec<u8>, AllocError>
    requires { own + 1 ≤ packages }
    ensures text { IfOk result (λ text. text.items ≡ (recipe packages own draws.old.state).text) }
    ensures state { OnOk result (draws.new.state ≡ (recipe packages own draws.old.state).state) }
{
    let mut text = Vec::new(alloc);
    write_recipe(alloc, packages, own, draws, &mut text)?;
    Ok(text)
}

/// Adds so many recipes, from package `own` on.
#[tactic(auto, using(crate::proofs::Counts::recipes_start, crate::proofs::Counts::more_recipes, crate::proofs::Counts::recipes_done))]
fn add_recipes(
    alloc: Global,
    packages: u64,
    own: u64,
    count: u64,
    draws: &mut Draws,
    desk: &mut SteadyDesk,
) -> Result<(), AllocError>
    requires { own + count ≤ packages }
    ensures { OnOk result (desk.new ≡ with_recipes packages own count draws.old.state desk.old) }
{
    for more in 0..count {
        let path = recipe_path(alloc, own + more)?;
        let text = recipe_text(alloc, packages, own + more, draws)?;
        desk.add(path.as_str(), text.as_slice())?;
    }
    Ok(())
}

/// A repository `repo` of so many packages, `p0` to `p(N - 1)`, each of which depends on later ones
/// alone.
///
/// The seed gives the same files everywhere. `repo/packages/pI/package.py` declares one to four
/// versions from 1.0 on and a variant, one to three dependencies on later packages, and at times a
/// conflict with version 1.0.
#[tactic(auto, unfolding(crate::specs::Inputs::input_files))]
pub fn make(alloc: Global, packages: u64, seed: u64) -> Result<SteadyDesk, AllocError>
    ensures { IfOk result (λ desk. desk ≡ input_files packages seed) }
{
    let mut desk = SteadyDesk::new(alloc);
    let mut draws = Draws { state: seed };
    add_recipes(alloc, packages, 0, packages, &mut draws, &mut desk)?;
    Ok(desk)
}
