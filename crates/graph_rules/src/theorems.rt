//! What holds of all problems and graphs. The bodies are empty: what is proved are the contracts.
ghost use Rattle.std.specs.Prelude.{◌≡◌, ◌↔◌, ◌++◌, ℕ, List, [], true, Some, slice_get, is_some};
ghost use Rattle.std.specs.List.{list_all};
ghost use Rattle.problem.specs.OfGraphCore.Graphs.{Text, Content, IsGraph, no_content};
ghost use Rattle.problem.specs.OfConditionRules.Words.{is_one_text};
ghost use Rattle.problem.specs.Problems.{world_of, package_entry_of, externals_in, record_at, with_budget};
ghost use Rattle.problem.specs.Problems.{Problem};
ghost use Rattle.problem.specs.OfGraphCore.Node.{Node};
ghost use Rattle.problem.specs.OfConditionRules.Holds.{governing};
ghost use Rattle.graph_rules.specs.Built.{governed};
ghost use Rattle.graph_rules.specs.Valid.{keeps, valid, valid_for};
ghost use Rattle.problem.specs.Demands.{demands};
ghost use Rattle.graph_rules.specs.Verdict.{Place, breaks, least, lesser_of, verdict};
ghost use Rattle.graph_rules.specs.declared.rule.Rule.{Rule};
ghost use Rattle.graph_rules.specs.declared.rule.Verdict.{Verdict};
ghost use Rattle.problem.specs.Closure.{IsClosure};
ghost use Rattle.problem.specs.OfGraphCore.Origin.{Origin};
ghost use Rattle.graph_rules.specs.Kept.{keeps_kept, external_node};
ghost use Rattle.problem.specs.OfReuseDb.Installed.{installed_node};
ghost use Rattle.problem.specs.OfReuseDb.Record.{Record};
ghost use Rattle.problem.specs.OfSiteSettings.ExternalEntry.{ExternalEntry};
ghost use Rattle.problem.specs.declared.demand.Demand.{Demand};

/// A graph is valid exactly where it is valid for all demands, and then it is for fewer. The empty
/// graph is valid for none. The budget changes nothing.
pub fn valid_laws()
    ensures fewer { (problem : Problem) (graph : Content) (asked : List Demand)
        → valid problem graph ≡ true → valid_for asked problem graph ≡ true }
    ensures all { (problem : Problem) (graph : Content) → IsGraph graph
        → valid_for (demands problem) problem graph ≡ true → valid problem graph ≡ true }
    ensures none { (problem : Problem) → valid_for [] problem no_content ≡ true }
    ensures budget_valid { (problem : Problem) (budget : ℕ) (graph : Content)
        → valid (with_budget budget problem) graph ≡ valid problem graph }
{}

/// A rule is kept exactly where it has no place at which it is broken.
pub fn rule_laws()
    ensures keeps { (rule : Rule) (problem : Problem) (graph : Content)
        → (keeps rule problem graph ≡ true) ↔ (breaks rule problem graph ≡ []) }
    // The least place of two lists together: what a loop over nodes and rows needs.
    ensures least { (xs ys : List Place) → least (xs ++ ys) ≡ lesser_of (least xs) (least ys) }
    ensures valid { (problem : Problem) (graph : Content)
        → (valid problem graph ≡ true) ↔ (verdict problem graph ≡ Verdict.Valid) }
{}

/// The variants that a node to build must have are those with a governing definition.
pub fn variant_laws()
    ensures { (problem : Problem) (graph : Content) (node : Node) (variant : Text)
        → is_one_text (governed problem graph node) variant
        ≡ is_some (governing (world_of problem) graph node.name variant) }
{}

/// Each node of a graph that is valid for some demands has a name of the closure.
pub fn closure_laws()
    ensures { (problem : Problem) (graph : Content) (asked : List Demand) (names : List Text)
        → IsGraph graph → valid_for asked problem graph ≡ true → IsClosure problem names
        → list_all (λ node. is_one_text names node.name) graph.nodes ≡ true }
{}

/// A kept node is the node of its record or of its entry.
pub fn kept_laws()
    ensures installed { (problem : Problem) (graph : Content) (node : Node) (hash : Text)
        → keeps_kept problem graph node ≡ true → node.origin ≡ Origin.Installed hash
        → (entry : Record) × (record_at problem hash ≡ Some entry) × (node.name ≡ entry.name)
        × (node ≡ record (installed_node entry) { origin = Origin.Installed hash }) }
    ensures external { (problem : Problem) (graph : Content) (node : Node) (place : ℕ)
        → keeps_kept problem graph node ≡ true → node.origin ≡ Origin.External place
        → (entry : ExternalEntry)
        × (slice_get (externals_in (package_entry_of problem node.name)) place ≡ Some entry)
        × (node ≡ external_node problem node.name place entry) }
{}
