//! What holds of all files. The body is empty: what is proved is the contract.

ghost use Rattle.std.specs.Prelude.{◌≡◌, ℕ, List, IfOk};
ghost use Rattle.recipe_reader.specs.Recipes.{recipe_of_file};
ghost use Rattle.recipe_reader.specs.Kept.{IsKept};

/// Each recipe has the name that its file was read under. It is right: version texts stand once; the default of a
/// variant has no value that is not allowed, and as many as its kind takes; no condition of a `provides` has `^`; each
/// `depends_on` names what it asks for; numbers rise, and directives have different ones. And variants and virtuals
/// have names.
pub fn recipe_laws()
    ensures kept { (name bytes : List ℕ) → IfOk (recipe_of_file name bytes) IsKept }
    ensures named { (name bytes : List ℕ)
        → IfOk (recipe_of_file name bytes) (λ recipe. recipe.name ≡ name) }
{}
