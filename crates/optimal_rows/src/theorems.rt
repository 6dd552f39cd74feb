//! Rows by computation. What is proved is the contract.
ghost use Rattle.std.specs.Prelude.{◌≡◌, true, false, codes};
ghost use Rattle.graph_core.specs.Graphs.{no_content};
ghost use Rattle.graph_rules.specs.Costs.{smaller, vector};
ghost use Rattle.graph_rules.specs.Optimal.{HasNoGraph, IsOptimal};
ghost use Rattle.graph_rules.specs.Valid.{valid};
ghost use Rattle.optimal_rows.specs.Worked.{of_version, worked};

/// Of a package with the versions 1 and 2 that a root asks for, a graph with either is valid, and
/// the newer one costs less. So the older one is not optimal, nor is a graph with a version that is
/// not declared, nor the empty one; and it is not so that no graph is valid.
pub fn optimal_rows()
    ensures newer { valid worked (of_version (codes "2")) ≡ true }
    ensures older { valid worked (of_version (codes "1")) ≡ true }
    ensures less { smaller (vector worked (of_version (codes "2")))
        (vector worked (of_version (codes "1"))) ≡ true }
    ensures unknown { valid worked (of_version (codes "3")) ≡ false }
    ensures empty { valid worked no_content ≡ false }
    ensures beaten { IsOptimal worked (of_version (codes "1")) → ⊥ }
    ensures invalid { IsOptimal worked (of_version (codes "3")) → ⊥ }
    ensures unasked { IsOptimal worked no_content → ⊥ }
    ensures some { HasNoGraph worked → ⊥ }
{}
