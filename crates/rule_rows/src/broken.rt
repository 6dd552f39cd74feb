// Each rule broken alone by one graph, and named so.
ghost use Rattle.std.specs.Prelude.{◌≡◌, [], ◌∷◌, codes, true};
ghost use Rattle.graph_core.specs.Graphs.{is_graph};
ghost use Rattle.graph_rules.specs.Valid.{valid};
ghost use Rattle.graph_rules.specs.Verdict.{verdict};
ghost use Rattle.graph_rules.specs.declared.rule.Rule.{Rule};
ghost use Rattle.graph_rules.specs.declared.rule.Verdict.{Verdict};
ghost use Rattle.rule_rows.specs.Build.{is_on, is_off};
ghost use Rattle.rule_rows.specs.Rows.{realistic, realistic_graph, old_compiler, old_compiler_graph, one_of_two, one_of_graph, with_installed, installed_graph};
ghost use Rattle.rule_rows.specs.Together.{apart, together, mixed, both_of_one};
ghost use Rattle.rule_rows.specs.Broken.{broken_rules, undeclared_version, variant_left_out, variants_out_of_order, value_not_allowed, other_compiler, no_compiler, other_os, prefix_of_a_built_node, kind_left_out, kind_not_asked_for, edge_not_asked_for, node_nobody_needs, provider_that_does_not, newer_root, not_buildable, older_zlib, older_zlib_graph, with_pmi, pmi_nobody_uses, asked_cycle, cycle_of_two, older_zlib_asked, newer_zlib_asked, one_asked};

/// The rules of a node to build, one by one.
pub fn broken_nodes()
    ensures none { broken_rules realistic realistic_graph ≡ [] }
    ensures buildable { broken_rules not_buildable realistic_graph ≡ Rule.Buildable ∷ [] }
    ensures buildable_at { verdict not_buildable realistic_graph ≡ Verdict.Broken Rule.Buildable
        (codes "zlib") 0 }
    ensures version { broken_rules realistic undeclared_version ≡ Rule.Version ∷ [] }
    ensures version_at { verdict realistic undeclared_version ≡ Verdict.Broken Rule.Version
        (codes "zlib") 0 }
    ensures variant { broken_rules realistic variant_left_out ≡ Rule.Variant ∷ [] }
    ensures variant_at { verdict realistic variant_left_out ≡ Verdict.Broken Rule.Variant
        (codes "hdf5") 0 }
    ensures order { broken_rules realistic variants_out_of_order ≡ Rule.Variant ∷ [] }
    ensures value { broken_rules realistic value_not_allowed ≡ Rule.Variant ∷ [] }
    ensures compiler { broken_rules realistic other_compiler ≡ Rule.Compiler ∷ [] }
    ensures compiler_at { verdict realistic other_compiler ≡ Verdict.Broken Rule.Compiler
        (codes "zlib") 0 }
    ensures no_compiler { broken_rules realistic no_compiler ≡ Rule.Compiler ∷ [] }
    ensures machine { broken_rules realistic other_os ≡ Rule.Machine ∷ [] }
    ensures machine_at { verdict realistic other_os ≡ Verdict.Broken Rule.Machine (codes "zlib") 0 }
    ensures kept { broken_rules realistic prefix_of_a_built_node ≡ Rule.Kept ∷ [] }
    ensures kept_at { verdict realistic prefix_of_a_built_node ≡ Verdict.Broken Rule.Kept
        (codes "zlib") 0 }
{}

/// The rules of roots and directives, one by one.
pub fn broken_directives()
    ensures root { broken_rules newer_root realistic_graph ≡ Rule.Root ∷ [] }
    ensures root_at { verdict newer_root realistic_graph ≡ Verdict.Broken Rule.Root
        (codes "hdf5") 0 }
    ensures edge { broken_rules realistic kind_left_out ≡ Rule.Edge ∷ [] }
    ensures edge_at { verdict realistic kind_left_out ≡ Verdict.Broken Rule.Edge (codes "hdf5") 4 }
    ensures kind { broken_rules realistic kind_not_asked_for ≡ Rule.ExtraEdge ∷ [] }
    ensures kind_at { verdict realistic kind_not_asked_for ≡ Verdict.Broken Rule.ExtraEdge
        (codes "hdf5") 0 }
    ensures extra { broken_rules realistic edge_not_asked_for ≡ Rule.ExtraEdge ∷ [] }
    ensures extra_at { verdict realistic edge_not_asked_for ≡ Verdict.Broken Rule.ExtraEdge
        (codes "mpich") 0 }
    ensures constraint { broken_rules older_zlib older_zlib_graph ≡ Rule.Constraint ∷ [] }
    ensures constraint_at { verdict older_zlib older_zlib_graph ≡ Verdict.Broken Rule.Constraint
        (codes "hdf5") 4 }
    ensures conflict { broken_rules old_compiler (old_compiler_graph (is_on (codes "s") ∷ []))
        ≡ Rule.Conflict ∷ [] }
    ensures conflict_at { verdict old_compiler (old_compiler_graph (is_on (codes "s") ∷ []))
        ≡ Verdict.Broken Rule.Conflict (codes "x") 2 }
    ensures requirement { broken_rules one_of_two
        (one_of_graph (is_on (codes "p") ∷ is_on (codes "q") ∷ [])) ≡ Rule.Requirement ∷ [] }
    ensures requirement_at { verdict one_of_two
        (one_of_graph (is_on (codes "p") ∷ is_on (codes "q") ∷ []))
        ≡ Verdict.Broken Rule.Requirement (codes "x") 3 }
    ensures neither { broken_rules one_of_two
        (one_of_graph (is_off (codes "p") ∷ is_off (codes "q") ∷ [])) ≡ Rule.Requirement ∷ [] }
    ensures required { broken_rules (older_zlib_asked realistic) realistic_graph
        ≡ Rule.Required ∷ [] }
    ensures required_at { verdict (older_zlib_asked realistic) realistic_graph
        ≡ Verdict.Broken Rule.Required (codes "zlib") 0 }
    ensures required_of_a_kept_node { broken_rules (newer_zlib_asked with_installed)
        installed_graph ≡ Rule.Required ∷ [] }
    ensures both_required { broken_rules one_asked
        (one_of_graph (is_on (codes "p") ∷ is_on (codes "q") ∷ [])) ≡ Rule.Required ∷ [] }
    ensures one_required { broken_rules one_asked
        (one_of_graph (is_on (codes "p") ∷ is_off (codes "q") ∷ [])) ≡ [] }
{}

/// The rules of providers and of the graph as a whole, one by one.
///
/// `Provider` is broken alone only where kept nodes alone name the virtual (`broken_names`): where
/// a built node does, its directive asks for a provision too.
pub fn broken_wholes()
    ensures provider { broken_rules realistic provider_that_does_not ≡ Rule.Provider
        ∷ Rule.UnusedProvider ∷ [] }
    ensures provider_at { verdict realistic provider_that_does_not ≡ Verdict.Broken Rule.Provider
        (codes "pmi") 0 }
    ensures used { valid with_pmi realistic_graph ≡ true }
    ensures unused { broken_rules with_pmi pmi_nobody_uses ≡ Rule.UnusedProvider ∷ [] }
    ensures unused_at { verdict with_pmi pmi_nobody_uses ≡ Verdict.Broken Rule.UnusedProvider
        (codes "pmi") 0 }
    ensures apart { valid apart mixed ≡ true }
    ensures together { broken_rules together mixed ≡ Rule.Together ∷ [] }
    ensures together_at { verdict together mixed ≡ Verdict.Broken Rule.Together
        (codes "blas") 0 }
    ensures both_of_one { valid together both_of_one ≡ true }
    ensures cycle { broken_rules asked_cycle cycle_of_two ≡ Rule.Cycle ∷ [] }
    ensures cycle_at { verdict asked_cycle cycle_of_two ≡ Verdict.Broken Rule.Cycle (codes "a") 0 }
    ensures unreachable { broken_rules realistic node_nobody_needs ≡ Rule.Unreachable ∷ [] }
    ensures unreachable_at { verdict realistic node_nobody_needs ≡ Verdict.Broken Rule.Unreachable
        (codes "openmpi") 0 }
    ensures graphs { is_graph node_nobody_needs ≡ true }
{}
