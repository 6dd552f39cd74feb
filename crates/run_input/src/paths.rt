//! Where the recipes of a repository stand.

ghost use Rattle.std.specs.Prelude.{◌≡◌, IfOk};
ghost use Rattle.std.specs.String.{string_bytes};
ghost use Rattle.run_input.specs.Paths.{packages_path, recipe_path};

use std::alloc::{AllocError, Global};

/// The folder with the packages of a repository: `REPO/packages`.
#[tactic(auto, unfolding(crate::specs::Paths::packages_path))]
pub(crate) fn packages_path(alloc: Global, repo: &str) -> Result<String, AllocError>
    ensures { IfOk result (λ path. string_bytes path ≡ packages_path repo.now) }
{
    format!(in alloc; "{repo}/packages")
}

/// The recipe of a package: `REPO/packages/NAME/package.py`.
#[tactic(auto, unfolding(crate::specs::Paths::recipe_path))]
pub(crate) fn recipe_path(alloc: Global, repo: &str, name: &str) -> Result<String, AllocError>
    ensures { IfOk result (λ path. string_bytes path ≡ recipe_path repo.now name.now) }
{
    format!(in alloc; "{repo}/packages/{name}/package.py")
}
