//! What holds of all tables of targets, and of small ones.
ghost use Rattle.std.specs.Prelude.{◌≡◌, ◌⊎◌, ◌↔◌, ℕ, List, [], ◌∷◌, Option, Some, None, IsTrue};
ghost use Rattle.std.specs.Prelude.{true, false, MatchOption};
ghost use Rattle.target_table.specs.declared.entry.TargetEntry.{TargetEntry};
ghost use Rattle.target_table.specs.declared.fault.TargetFault.{TargetFault};
ghost use Rattle.target_table.specs.declared.fault.TargetFault.TheVariants.{TwiceNamed};
ghost use Rattle.target_table.specs.declared.fault.TargetFault.TheVariants.{UnknownParent};
ghost use Rattle.target_table.specs.declared.fault.TargetFault.TheVariants.{CyclicTargets};
ghost use Rattle.target_table.specs.declared.fault.TargetFault.TheVariants.{OutOfMemory};
ghost use Rattle.target_table.specs.Targets.{AreTargets, IsTargetFault, HasAncestor, has_ancestor};
ghost use Rattle.target_table.specs.Targets.{IsAtLeast, IsInRange, is_at_least, in_range, place_of};
ghost use Rattle.target_table.specs.Faults.{fault_of};
ghost use Rattle.target_table.specs.Rows.{a, b, v1, v2, v3, v9, entry, three_levels, diamond};

/// The fault of entries is one that can be computed; there is one at most, memory apart.
pub fn fault_laws()
    ensures means { (entries : List TargetEntry)
        → MatchOption (fault_of entries) (AreTargets entries) (IsTargetFault entries) }
    ensures one { (entries : List TargetEntry) (fault : TargetFault) → IsTargetFault entries fault
        → (fault ≡ OutOfMemory) ⊎ (fault_of entries ≡ Some fault) }
    ensures none { (entries : List TargetEntry) → AreTargets entries → fault_of entries ≡ None }
{}

/// What the tests of ancestors and ranges tell.
pub fn range_laws()
    ensures ancestor { (entries : List TargetEntry) (target low : List ℕ)
        → IsTrue (has_ancestor entries target low) ↔ HasAncestor entries target low }
    ensures least { (entries : List TargetEntry) (target low : List ℕ)
        → IsTrue (is_at_least entries target low) ↔ IsAtLeast entries target low }
    ensures range { (entries : List TargetEntry) (target : List ℕ) (low high : Option (List ℕ))
        → IsTrue (in_range entries target low high) ↔ IsInRange entries target low high }
{}

/// Three levels, each on the one below; a diamond; and entries that are no table.
pub fn worked_targets()
    ensures levels { fault_of three_levels ≡ None }
    ensures up { is_at_least three_levels v3 v1 ≡ true }
    ensures down { is_at_least three_levels v1 v3 ≡ false }
    ensures itself { is_at_least three_levels v2 v2 ≡ true }
    ensures unknown_itself { is_at_least three_levels v9 v9 ≡ true }
    ensures above_high { in_range three_levels v2 None (Some v1) ≡ false }
    ensures between { in_range three_levels v2 (Some v1) (Some v3) ≡ true }
    ensures no_ends { in_range three_levels v9 None None ≡ true }
    ensures place { place_of three_levels v2 ≡ Some 1 }
    ensures no_place { place_of three_levels v9 ≡ None }
    ensures diamond { fault_of diamond ≡ None }
    ensures over { is_at_least diamond v3 v1 ≡ true }
    ensures beside { is_at_least diamond a b ≡ false }
    ensures own_parent { fault_of (entry v1 (v1 ∷ []) ∷ []) ≡ Some CyclicTargets }
    ensures around { fault_of (entry v1 (v2 ∷ []) ∷ entry v2 (v3 ∷ []) ∷ entry v3 (v1 ∷ []) ∷ [])
        ≡ Some CyclicTargets }
    ensures twice { fault_of (entry v1 [] ∷ entry v2 (v9 ∷ []) ∷ entry v1 [] ∷ [])
        ≡ Some (TwiceNamed 2) }
    ensures behind_cycle { fault_of (entry v1 (v1 ∷ []) ∷ entry v2 (v9 ∷ []) ∷ [])
        ≡ Some (UnknownParent 1) }
    ensures before_cycle { fault_of (entry v2 (v9 ∷ []) ∷ entry v1 (v1 ∷ []) ∷ [])
        ≡ Some (UnknownParent 0) }
    ensures later_parent { fault_of (entry v2 (v1 ∷ []) ∷ entry v1 [] ∷ []) ≡ None }
{}
