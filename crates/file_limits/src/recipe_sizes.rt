//! What holds of the sizes of all recipes. The body is empty: what is proved is the contract.

ghost use Rattle.std.specs.Prelude.{◌≡◌, ◌≤◌, ◌^◌, ℕ, true, List, length, map, Ok, IfOk};
ghost use Rattle.std.specs.List.{sum_by};
ghost use Rattle.recipe_data.specs.declared.recipe.Recipe.{Recipe};
ghost use Rattle.recipe_reader.specs.Recipes.{recipe_of_file};
ghost use Rattle.problem.specs.Limits.{are_few_rows, size_of_recipe};

/// A recipe has at most as many rows and members of value and default sets as its file has bytes,
/// and the recipes of some files at most as many as these files have. So those of files of at most
/// 2^28 bytes are within the limits of a problem.
pub fn size_laws()
    ensures file { (name bytes : List ℕ)
        → IfOk (recipe_of_file name bytes) (λ recipe. size_of_recipe recipe ≤ length bytes) }
    ensures files { (files : List (List ℕ × List ℕ)) (recipes : List Recipe) →
        map (λ file. recipe_of_file file.0 file.1) files ≡ map Ok recipes →
        sum_by size_of_recipe recipes ≤ sum_by (λ file. length file.1) files }
    ensures within { (files : List (List ℕ × List ℕ)) (recipes : List Recipe) →
        map (λ file. recipe_of_file file.0 file.1) files ≡ map Ok recipes →
        sum_by (λ file. length file.1) files ≤ 2 ^ 28 → are_few_rows recipes ≡ true }
{}
