// Whether recipes and roots may be put together.
ghost use Rattle.std.specs.Prelude.{◌≡◌, true, map, is_some};
ghost use Rattle.std.specs.List.{list_all};
ghost use Rattle.variant_values.specs.Texts.{byte_cmp};
ghost use Rattle.keyed_lists.specs.Keyed.{rises};
ghost use Rattle.virtuals.specs.Virtuals.{AreInOrder};

use recipe_data::Recipe;
use spec_grammar::Spec;

fn names_rise(recipes: &[Recipe]) -> bool
    ensures { result ≡ rises byte_cmp (map (λ recipe. recipe.name) recipes.now) }
{
    match recipes {
        [] => true,
        [_recipe] => true,
        [first, second, ..] => {
            first.name.as_str().cmp(second.name.as_str()).is_lt() && names_rise(&recipes[1..])
        }
    }
}

/// Whether recipes are in byte order of their names, each once.
pub fn are_in_order(recipes: &[Recipe]) -> bool
    ensures { result ≡ true → AreInOrder recipes.now }
{
    names_rise(recipes)
}

/// Whether each root has a name.
pub fn are_named(roots: &[Spec]) -> bool
    ensures { result ≡ list_all (λ spec. is_some spec.top.name) roots.now }
{
    roots.iter().all(|spec| spec.top.name.is_some())
}
