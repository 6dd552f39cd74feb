//! What holds of all weights and cost vectors. What is proved are the contracts.
ghost use Rattle.std.specs.Prelude.{◌≡◌, ◌++◌, ◌∷◌, ◌≤◌, ◌<◌, ℕ, List, None, Some, find, get_or, take, true, false};
ghost use Rattle.std.specs.List.{list_any};
ghost use Rattle.std.specs.Str.{bytes_eq};
ghost use Rattle.std.specs.declared.cmp.Ordering.TheVariants.{Less};
ghost use Rattle.version_order.specs.Order.{version_cmp};
ghost use Rattle.version_order.specs.Prefix.{is_special};
ghost use Rattle.graph_core.specs.Graphs.{Text, Content};
ghost use Rattle.graph_core.specs.declared.node.Compiler.{Compiler};
ghost use Rattle.recipe_data.specs.declared.recipe.VersionRow.{VersionRow};
ghost use Rattle.site_settings.specs.declared.settings.CompilerEntry.{CompilerEntry};
ghost use Rattle.target_table.specs.declared.entry.TargetEntry.{TargetEntry};
ghost use Rattle.problem.specs.Nodes.{IsWellFormed};
ghost use Rattle.problem.specs.Problems.{Problem, same_compiler, versions_at};
ghost use Rattle.graph_rules.specs.Weights.{compiler_weight, os_weight, provider_weight, target_weight, version_weight};
ghost use Rattle.graph_rules.specs.Costs.{vector};
ghost use Rattle.graph_rules.specs.Optimal.{IsOptimal};
ghost use Rattle.graph_rules.specs.Valid.{valid};
ghost use Rattle.cost_laws.specs.Words.{AreAlike, IsDeclared, deprecated_builds, list_of, providers_of, weight_of};

use version_order::laws;

/// Which of two declared versions of a package weighs less.
///
/// That of an earlier list of the settings; of one list, the one that its recipe prefers; of
/// these, the one that is not deprecated; then the one without a special component, and then the
/// newer one. A version that is not declared weighs more than each that is.
pub fn version_laws()
    ensures earlier_list { (problem : Problem) (name : Text) (a b : VersionRow)
        → IsDeclared problem name a → IsDeclared problem name b
        → list_of problem name a < list_of problem name b
        → weight_of problem name a < weight_of problem name b }
    ensures preferred { (problem : Problem) (name : Text) (a b : VersionRow)
        → IsDeclared problem name a → IsDeclared problem name b
        → list_of problem name a ≡ list_of problem name b
        → a.preferred ≡ true → b.preferred ≡ false
        → weight_of problem name a < weight_of problem name b }
    ensures not_deprecated { (problem : Problem) (name : Text) (a b : VersionRow)
        → IsDeclared problem name a → IsDeclared problem name b
        → list_of problem name a ≡ list_of problem name b → a.preferred ≡ b.preferred
        → a.deprecated ≡ false → b.deprecated ≡ true
        → weight_of problem name a < weight_of problem name b }
    ensures not_special { (problem : Problem) (name : Text) (a b : VersionRow)
        → IsDeclared problem name a → IsDeclared problem name b
        → list_of problem name a ≡ list_of problem name b → a.preferred ≡ b.preferred
        → a.deprecated ≡ b.deprecated
        → is_special a.version ≡ false → is_special b.version ≡ true
        → weight_of problem name a < weight_of problem name b }
    ensures newer { (problem : Problem) (name : Text) (a b : VersionRow)
        → IsDeclared problem name a → IsDeclared problem name b → AreAlike problem name a b
        → version_cmp b.version a.version ≡ Less
        → weight_of problem name a < weight_of problem name b }
    ensures declared { (problem : Problem) (name version : Text) (a : VersionRow)
        → IsDeclared problem name a
        → find (λ row. bytes_eq row.version version) (versions_at problem name) ≡ None
        → weight_of problem name a < version_weight problem name version }
{
    laws();
}

/// What stands in a list of the settings weighs less than what stands behind it, or not there.
pub fn place_laws()
    ensures providers { (problem : Problem) (virtual a b : Text) (front rest : List Text)
        → providers_of problem virtual ≡ front ++ a ∷ rest
        → list_any (bytes_eq b) front ≡ false → bytes_eq b a ≡ false
        → provider_weight problem (virtual, a) < provider_weight problem (virtual, b) }
    ensures os { (problem : Problem) (a b : Text) (front rest : List Text)
        → problem.settings.os ≡ front ++ a ∷ rest
        → list_any (bytes_eq b) front ≡ false → bytes_eq b a ≡ false
        → os_weight problem a < os_weight problem b }
    ensures targets { (problem : Problem) (a : TargetEntry) (b : Text)
        (front rest : List TargetEntry)
        → problem.settings.targets ≡ front ++ a ∷ rest
        → list_any (λ (entry : TargetEntry). bytes_eq b entry.name) front ≡ false
        → bytes_eq b a.name ≡ false
        → target_weight problem a.name < target_weight problem b }
    ensures compilers { (problem : Problem) (a : CompilerEntry) (b : Compiler)
        (front rest : List CompilerEntry) → problem.settings.compilers ≡ front ++ a ∷ rest
        → list_any (λ (entry : CompilerEntry). same_compiler entry.compiler b) front ≡ false
        → same_compiler a.compiler b ≡ false
        → compiler_weight problem (Some a.compiler) < compiler_weight problem (Some b) }
{}

/// What the numbers of a cost vector say, the first one first.
pub fn number_laws()
    // The first number counts the deprecated packages that are to be built.
    ensures first { (problem : Problem) (graph : Content)
        → get_or (vector problem graph) 0 0 ≡ deprecated_builds problem graph }
    // So no valid graph builds fewer of them than a best one.
    ensures fewest_deprecated { (problem : Problem) (best other : Content) → IsWellFormed other
        → IsOptimal problem best → valid problem other ≡ true
        → deprecated_builds problem best ≤ deprecated_builds problem other }
    // And among the valid graphs that agree with a best one in the numbers before, none has a
    // smaller next one.
    ensures least { (problem : Problem) (best other : Content) (k : ℕ) → IsWellFormed other
        → IsOptimal problem best → valid problem other ≡ true
        → take k (vector problem other) ≡ take k (vector problem best)
        → get_or (vector problem best) k 0 ≤ get_or (vector problem other) k 0 }
{}
