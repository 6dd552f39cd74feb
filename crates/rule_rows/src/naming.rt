// What edges name. The bodies are empty: what is proved are the contracts.
ghost use Rattle.std.specs.Prelude.{◌≡◌, [], ◌∷◌, ◌++◌, codes, true};
ghost use Rattle.graph_core.specs.Graphs.{is_graph};
ghost use Rattle.graph_rules.specs.Valid.{valid};
ghost use Rattle.graph_rules.specs.Named.{named_graph};
ghost use Rattle.graph_rules.specs.Verdict.{verdict};
ghost use Rattle.graph_rules.specs.Costs.{vector};
ghost use Rattle.graph_rules.specs.declared.rule.Rule.{Rule};
ghost use Rattle.graph_rules.specs.declared.rule.Verdict.{Verdict};
ghost use Rattle.rule_rows.specs.Rows.{vector_of, realistic, realistic_graph};
ghost use Rattle.rule_rows.specs.Broken.{broken_rules};
ghost use Rattle.rule_rows.specs.Naming.{mpi, with_record, no_longer_provided, provided_by, as_installed, over_installed, beside_installed, all_built, name_not_asked_for, hdf5_naming};

/// A record that names no virtual binds no provider; one that names mpi does, and then what weighs
/// less is a new build.
pub fn recorded_rows()
    ensures graph { is_graph (as_installed mpi (provided_by (codes "mpich"))) ≡ true }
    ensures silent { valid (with_record [] (codes "t")) (as_installed [] []) ≡ true }
    ensures silent_costs { vector (with_record [] (codes "t")) (as_installed [] [])
        ≡ vector_of [] }
    ensures naming { valid (with_record mpi (codes "t"))
        (as_installed mpi (provided_by (codes "mpich"))) ≡ true }
    ensures naming_costs { vector (with_record mpi (codes "t"))
        (as_installed mpi (provided_by (codes "mpich"))) ≡ vector_of ((23, 1) ∷ []) }
    ensures over_silent { valid (with_record [] (codes "app")) (over_installed mpi []) ≡ true }
    ensures over_naming { valid (with_record mpi (codes "app")) (over_installed mpi mpi) ≡ true }
    ensures over_costs { vector (with_record mpi (codes "app")) (over_installed mpi mpi)
        ≡ vector_of ((16, 1) ∷ (23, 1) ∷ []) }
    ensures beside_silent { valid (with_record [] (codes "app")) (beside_installed []) ≡ true }
    ensures beside_costs { vector (with_record [] (codes "app")) (beside_installed [])
        ≡ vector_of ((16, 2) ∷ []) }
    ensures built { valid (with_record mpi (codes "app")) (all_built mpi mpi) ≡ true }
    ensures built_costs { vector (with_record mpi (codes "app")) (all_built mpi mpi)
        ≡ vector_of ((16, 3) ∷ []) }
{}

/// The rules of what edges name, one by one: a wrong provider, a recorded name that is left out,
/// one that is not recorded, and `Provider` alone.
pub fn broken_names()
    ensures other_provider { broken_rules (with_record mpi (codes "app")) (beside_installed mpi)
        ≡ Rule.Kept ∷ [] }
    ensures other_provider_at { verdict (with_record mpi (codes "app")) (beside_installed mpi)
        ≡ Verdict.Broken Rule.Kept (codes "t") 0 }
    ensures passed_over { broken_rules (with_record mpi (codes "app")) (beside_installed [])
        ≡ Rule.Kept ∷ [] }
    ensures not_recorded { broken_rules (with_record [] (codes "t"))
        (as_installed mpi (provided_by (codes "mpich"))) ≡ Rule.Kept ∷ [] }
    ensures provider { broken_rules no_longer_provided
        (as_installed mpi (provided_by (codes "mpich"))) ≡ Rule.Provider ∷ [] }
    ensures provider_at { verdict no_longer_provided
        (as_installed mpi (provided_by (codes "mpich")))
        ≡ Verdict.Broken Rule.Provider (codes "mpi") 0 }
    ensures unused { broken_rules (with_record [] (codes "t"))
        (as_installed [] (provided_by (codes "mpich"))) ≡ Rule.UnusedProvider ∷ [] }
    ensures unnamed { broken_rules (with_record mpi (codes "app")) (all_built [] mpi)
        ≡ Rule.Edge ∷ [] }
    ensures unnamed_at { verdict (with_record mpi (codes "app")) (all_built [] mpi)
        ≡ Verdict.Broken Rule.Edge (codes "app") 2 }
    ensures not_asked { broken_rules realistic name_not_asked_for ≡ Rule.ExtraEdge ∷ [] }
    ensures no_virtual { broken_rules realistic (hdf5_naming (mpi ++ codes "zlib" ∷ []))
        ≡ Rule.ExtraEdge ∷ [] }
{}

/// The names that the first version of a lock file leaves out: those of nodes to build are found,
/// and others stay as they are.
pub fn named_rows()
    ensures found { named_graph realistic (hdf5_naming []) ≡ realistic_graph }
    ensures replaced { named_graph realistic name_not_asked_for ≡ realistic_graph }
    ensures again { named_graph realistic realistic_graph ≡ realistic_graph }
    ensures silent { named_graph (with_record mpi (codes "app")) (over_installed [] [])
        ≡ over_installed mpi [] }
    ensures kept { named_graph (with_record mpi (codes "app")) (over_installed [] mpi)
        ≡ over_installed mpi mpi }
    ensures both { named_graph (with_record mpi (codes "app")) (all_built [] []) ≡ all_built mpi mpi }
{}
