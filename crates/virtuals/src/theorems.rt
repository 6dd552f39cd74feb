// What holds of all virtuals.
ghost use Rattle.std.specs.Prelude.{◌≡◌, List, Some, true, Contains};
ghost use Rattle.std.specs.Ordering.{is_le};
ghost use Rattle.recipe_data.specs.OfVariantValues.Texts.{byte_cmp};
ghost use Rattle.recipe_data.specs.OfGraphCore.Graphs.{Text};
ghost use Rattle.recipe_data.specs.declared.recipe.Recipe.{Recipe};
ghost use Rattle.virtuals.specs.Virtuals.{AreInOrder, AreProviders, Pairs, clash, has_pair, is_virtual};

/// A table of providers has a name exactly where the name is a virtual. The name that clashes is
/// the least that does.
pub fn virtual_laws()
    ensures has { (recipes : List Recipe) (pairs : Pairs) (name : Text) → AreProviders recipes pairs
        → has_pair pairs name ≡ is_virtual recipes name }
    ensures least { (recipes : List Recipe) (first other : Recipe) → AreInOrder recipes
        → clash recipes ≡ Some first
        → Contains recipes other → is_virtual recipes other.name ≡ true
        → is_le (byte_cmp first.name other.name) ≡ true }
{}
