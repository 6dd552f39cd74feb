// Worked rows. The bodies are empty: what is proved are the contracts.
ghost use Rattle.std.specs.Prelude.{◌≡◌, [], ◌∷◌, codes, true, false, Some, None};
ghost use Rattle.graph_core.specs.Graphs.{is_graph};
ghost use Rattle.graph_rules.specs.Valid.{valid, keeps, valid_for};
ghost use Rattle.graph_rules.specs.Verdict.{verdict};
ghost use Rattle.problem.specs.Assembled.{is_assembled};
ghost use Rattle.problem.specs.Closure.{is_closed};
ghost use Rattle.problem.specs.Roots.{roots_fault};
ghost use Rattle.virtuals.specs.Virtuals.{clash};
ghost use Rattle.graph_rules.specs.declared.rule.Verdict.{Verdict};
ghost use Rattle.problem.specs.declared.demand.Demand.{Demand};
ghost use Rattle.problem.specs.declared.fault.ProblemFault.{ProblemFault};
ghost use Rattle.graph_rules.specs.Costs.{vector};
ghost use Rattle.graph_rules.specs.declared.rule.Rule.{Rule};
ghost use Rattle.rule_rows.specs.Build.{is_on, is_off, named, built, installed, edge, to_run, graph, problem, recipe, with_roots};
ghost use Rattle.rule_rows.specs.Rows.{vector_of, realistic, realistic_graph, old_compiler, old_compiler_graph, beside, one_node, with_cycle, one_of_two, one_of_graph, with_installed, installed_graph, with_run, with_run_graph, with_newer, newer_graph, single, without_run_graph, with_external, external_graph};

/// `hdf5@1.10: +mpi ^mpich`, where the settings prefer openmpi.
pub fn realistic_row()
    ensures graph { is_graph realistic_graph ≡ true }
    ensures valid { valid realistic realistic_graph ≡ true }
    ensures assembled { is_assembled realistic ≡ true }
    ensures kept { verdict realistic realistic_graph ≡ Verdict.Valid }
    ensures closed { is_closed realistic
        (codes "hdf5" ∷ codes "mpich" ∷ codes "openmpi" ∷ codes "zlib" ∷ []) ≡ true }
    ensures costs { vector realistic realistic_graph
        ≡ vector_of ((3, 1) ∷ (5, 1) ∷ (7, 1) ∷ (16, 3) ∷ []) }
{}

/// The compiler is old, so a variant is off against its default.
pub fn variant_row()
    ensures valid { valid old_compiler (old_compiler_graph (is_off (codes "s") ∷ [])) ≡ true }
    ensures conflict { keeps Rule.Conflict old_compiler
        (old_compiler_graph (is_on (codes "s") ∷ [])) ≡ false }
    ensures costs { vector old_compiler (old_compiler_graph (is_off (codes "s") ∷ []))
        ≡ vector_of ((3, 1) ∷ (5, 1) ∷ (16, 1) ∷ []) }
{}

/// `c` alone, and beside two packages that need each other.
pub fn cycle_beside_row()
    ensures valid { valid beside one_node ≡ true }
    ensures costs { vector beside one_node ≡ vector_of ((16, 1) ∷ []) }
    ensures verdict { verdict beside with_cycle ≡ Verdict.Broken Rule.Cycle (codes "a") 0 }
    ensures fewer { valid_for (Demand.Root 0 ∷ []) (with_roots (named (codes "a") ∷ []) beside)
        (graph (built (codes "a") (codes "1") [] ∷ []) []) ≡ true }
    ensures cycle { keeps Rule.Cycle beside with_cycle ≡ false }
    ensures unreachable { keeps Rule.Unreachable beside with_cycle ≡ false }
{}

/// Exactly one of two variants is on.
pub fn one_of_row()
    ensures both { keeps Rule.Requirement one_of_two
        (one_of_graph (is_on (codes "p") ∷ is_on (codes "q") ∷ [])) ≡ false }
    ensures none { keeps Rule.Requirement one_of_two
        (one_of_graph (is_off (codes "p") ∷ is_off (codes "q") ∷ [])) ≡ false }
    ensures first { valid one_of_two (one_of_graph (is_on (codes "p") ∷ is_off (codes "q") ∷ []))
        ≡ true }
    ensures second { valid one_of_two (one_of_graph (is_off (codes "p") ∷ is_on (codes "q") ∷ []))
        ≡ true }
    ensures costs { vector one_of_two (one_of_graph (is_on (codes "p") ∷ is_off (codes "q") ∷ []))
        ≡ vector_of ((3, 1) ∷ (5, 1) ∷ (16, 1) ∷ []) }
{}

/// A child is installed, in an older version.
pub fn installed_row()
    ensures valid { valid with_installed installed_graph ≡ true }
    ensures root { valid (with_roots (named (codes "zlib") ∷ []) with_installed)
        (graph (installed (codes "h") (codes "zlib") (codes "1.2.11") ∷ []) []) ≡ true }
    ensures root_costs { vector (with_roots (named (codes "zlib") ∷ []) with_installed)
        (graph (installed (codes "h") (codes "zlib") (codes "1.2.11") ∷ []) [])
        ≡ vector_of ((18, 1) ∷ []) }
    ensures costs { vector with_installed installed_graph ≡ vector_of ((16, 1) ∷ (27, 1) ∷ []) }
{}

/// An installed package brings the child that it runs.
pub fn run_child_row()
    ensures valid { valid with_run with_run_graph ≡ true }
    ensures costs { vector with_run with_run_graph ≡ vector_of ((27, 1) ∷ []) }
    ensures newer { valid with_newer newer_graph ≡ true }
    ensures newer_costs { vector with_newer newer_graph ≡ vector_of ((16, 2) ∷ []) }
    ensures older { keeps Rule.Root with_newer with_run_graph ≡ false }

    // What is no graph, or no right problem, is told.
    ensures no_graph { is_graph (graph (installed (codes "hu") (codes "u") (codes "1.0")
        ∷ installed (codes "ht") (codes "t") (codes "1") ∷ []) []) ≡ false }
    ensures no_end { is_graph (graph [] (edge (codes "t") (codes "u") to_run ∷ [])) ≡ false }
    ensures not_assembled { is_assembled
        (problem (single (codes "b") (codes "a") ∷ single (codes "a") (codes "b") ∷ []) [])
        ≡ false }
    ensures clash { clash (recipe (codes "mpi") [] ∷ realistic.recipes)
        ≡ Some (recipe (codes "mpi") []) }
    ensures left_out { keeps Rule.Kept with_run without_run_graph ≡ false }
{}

/// A child is external.
pub fn external_row()
    ensures valid { valid with_external external_graph ≡ true }
    ensures costs { vector with_external external_graph ≡ vector_of ((16, 1) ∷ (27, 1) ∷ []) }
{}

/// Roots that are refused.
pub fn root_rows()
    ensures right { roots_fault realistic ≡ None }
    ensures unknown { roots_fault (with_roots (named (codes "nosuch") ∷ []) realistic)
        ≡ Some (ProblemFault.UnknownRoot (codes "nosuch")) }
    ensures is_virtual { roots_fault
        (with_roots (named (codes "zlib") ∷ named (codes "mpi") ∷ []) realistic)
        ≡ Some (ProblemFault.VirtualRoot (codes "mpi")) }
    ensures platform { roots_fault
        (with_roots (record (named (codes "zlib")) { platform = Some (codes "darwin") } ∷ [])
        realistic) ≡ Some (ProblemFault.WrongPlatform (codes "darwin")) }
{}
