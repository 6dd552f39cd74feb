//! What holds of all weights and vectors.
ghost use Rattle.std.specs.Prelude.{◌≡◌, ℕ, List, Some, None, find, length, slice_get};
ghost use Rattle.std.specs.List.Sorted.{IsPermutation, IsStrictlySortedBy};
ghost use Rattle.std.specs.Str.{bytes_eq};
ghost use Rattle.graph_core.specs.Graphs.{Text, Content};
ghost use Rattle.recipe_data.specs.declared.recipe.VersionRow.{VersionRow};
ghost use Rattle.problem.specs.Problems.{versions_at, package_entry_of, with_budget, Problem};
ghost use Rattle.graph_rules.specs.Costs.{vector};
ghost use Rattle.graph_rules.specs.Weights.{listed_in, row_cmp, version_weight};
ghost use Rattle.graph_rules.specs.Optimal.{IsOptimal};
ghost use Rattle.problem.specs.Nodes.{IsWellFormed};

use version_order::laws;

/// A version's weight is its row's place, from 0, in the sort of the declared versions, and the
/// number of these where it is not declared.
pub fn weights_are_places()
    ensures place { (problem : Problem) (name version : Text) (sorted : List VersionRow) (place : ℕ)
        (row : VersionRow) → IsPermutation (versions_at problem name) sorted
        → IsStrictlySortedBy (row_cmp (listed_in (package_entry_of problem name))) sorted
        → find (λ r. bytes_eq r.version version) (versions_at problem name) ≡ Some row
        → slice_get sorted place ≡ Some row → version_weight problem name version ≡ place }
    ensures not_declared { (problem : Problem) (name version : Text)
        → find (λ r. bytes_eq r.version version) (versions_at problem name) ≡ None
        → version_weight problem name version ≡ length (versions_at problem name) }
{
    laws();
}

/// Best graphs have one vector, and the budget changes no vector.
pub fn vector_laws()
    ensures one_vector { (problem : Problem) (a b : Content) → IsWellFormed a → IsWellFormed b
        → IsOptimal problem a → IsOptimal problem b → vector problem a ≡ vector problem b }
    ensures budget { (problem : Problem) (budget : ℕ) (graph : Content)
        → vector (with_budget budget problem) graph ≡ vector problem graph }
{}
