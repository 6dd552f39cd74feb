//! What the formulas of rules say. The bodies are empty: what is proved are the contracts.
ghost use Rattle.std.specs.Prelude.{◌≡◌, ℕ, Bool, List};
ghost use Rattle.clause_formulas.specs.Statements.{Statement};
ghost use Rattle.spec_grammar.specs.declared.part.Spec.{Spec};
ghost use Rattle.graph_core.specs.Graphs.{Text, Content};
ghost use Rattle.recipe_data.specs.OfSpecGrammar.Condition.{Condition};
ghost use Rattle.recipe_data.specs.declared.recipe.DependRow.{DependRow};
ghost use Rattle.recipe_data.specs.declared.recipe.ConflictRow.{ConflictRow};
ghost use Rattle.recipe_data.specs.declared.recipe.RequireRow.{RequireRow};
ghost use Rattle.problem.specs.Problems.{Problem};
ghost use Rattle.problem.specs.declared.demand.Demand.{Demand};
ghost use Rattle.graph_rules.specs.Directives.{keeps_root, keeps_edge, keeps_constraint, keeps_conflict, keeps_requirement};
ghost use Rattle.graph_rules.specs.Valid.{keeps, keeps_demand};
ghost use Rattle.graph_rules.specs.declared.rule.Rule.TheVariants as rules;
ghost use Rattle.literal_table.specs.Tables.{Table, table_names, children_of};
ghost use Rattle.graph_formulas.specs.Words.{names_for};
ghost use Rattle.graph_formulas.specs.Terms.{known_rule, where_built, where_there};
ghost use Rattle.graph_formulas.specs.Directives.{root_rule, edge_rule, constraint_rule, conflict_rule, requirement_rule};
ghost use Rattle.graph_formulas.specs.Built.{buildable_rule, version_rule, compiler_rule, machine_rule, provider_rule, no_cycle_rule, reachable_rule};
ghost use Rattle.graph_formulas.specs.Edges.{extra_edges_rule, used_rule, of_provider};
ghost use Rattle.graph_formulas.specs.Together.{together_rule};
ghost use Rattle.graph_formulas.specs.Variants.{variants_rule};
ghost use Rattle.graph_formulas.specs.Kept.{kept_rule, origins_of};
ghost use Rattle.graph_formulas.specs.Demands.{demand_rule};
ghost use Rattle.graph_formulas.specs.Laws.{SpellsProblem, HasVariants, rule_says, all_say, if_built, has_name, virtuals_of, virtuals_on, may_use, variants_of};

/// The formula of a demand says whether it is kept, and so do those of each root and directive.
pub fn demand_laws()
    ensures demand { (problem : Problem) (v : ℕ → Bool) (path : Text → Text → Statement)
        (condition : Text → Condition → Statement) (table : Table) (graph : Content)
        → SpellsProblem problem v path condition table graph
        → (d : Demand) → rule_says v path condition table
        (demand_rule problem (names_for table) (has_name table) d) ≡ keeps_demand problem graph d }
    ensures root { (problem : Problem) (v : ℕ → Bool) (path : Text → Text → Statement)
        (condition : Text → Condition → Statement) (table : Table) (graph : Content)
        → SpellsProblem problem v path condition table graph
        → (spec : Spec) → rule_says v path condition table
        (known_rule (root_rule problem (names_for table) spec)) ≡ keeps_root problem graph spec }
    ensures edge { (problem : Problem) (v : ℕ → Bool) (path : Text → Text → Statement)
        (condition : Text → Condition → Statement) (table : Table) (graph : Content)
        → SpellsProblem problem v path condition table graph
        → (name : Text) (row : DependRow) → rule_says v path condition table
        (where_built name (edge_rule problem (names_for table) name row))
        ≡ if_built graph name (λ node. keeps_edge problem graph node row) }
    ensures constraint { (problem : Problem) (v : ℕ → Bool) (path : Text → Text → Statement)
        (condition : Text → Condition → Statement) (table : Table) (graph : Content)
        → SpellsProblem problem v path condition table graph
        → (name : Text) (row : DependRow) → rule_says v path condition table
        (where_built name (constraint_rule problem (names_for table) name row))
        ≡ if_built graph name (λ node. keeps_constraint problem graph node row) }
    ensures conflict { (problem : Problem) (v : ℕ → Bool) (path : Text → Text → Statement)
        (condition : Text → Condition → Statement) (table : Table) (graph : Content)
        → SpellsProblem problem v path condition table graph
        → (name : Text) (row : ConflictRow) → rule_says v path condition table
        (where_built name (conflict_rule problem (names_for table) name row))
        ≡ if_built graph name (λ node. keeps_conflict problem graph node row) }
    ensures requirement { (problem : Problem) (v : ℕ → Bool) (path : Text → Text → Statement)
        (condition : Text → Condition → Statement) (table : Table) (graph : Content)
        → SpellsProblem problem v path condition table graph
        → (name : Text) (row : RequireRow) → rule_says v path condition table
        (where_built name (requirement_rule problem (names_for table) name row))
        ≡ if_built graph name (λ node. keeps_requirement problem graph node row) }
{}

/// The formulas of a rule at all names, or at all virtuals, say whether the graph keeps the rule.
pub fn structure_laws()
    ensures buildable { (problem : Problem) (v : ℕ → Bool) (path : Text → Text → Statement)
        (condition : Text → Condition → Statement) (table : Table) (graph : Content)
        → SpellsProblem problem v path condition table graph
        → all_say v path condition table
        (λ name. where_built name (known_rule (buildable_rule problem name)))
        (table_names table) ≡ keeps rules.Buildable problem graph }
    ensures version { (problem : Problem) (v : ℕ → Bool) (path : Text → Text → Statement)
        (condition : Text → Condition → Statement) (table : Table) (graph : Content)
        → SpellsProblem problem v path condition table graph
        → all_say v path condition table
        (λ name. where_built name (known_rule (version_rule problem name)))
        (table_names table) ≡ keeps rules.Version problem graph }
    ensures variant { (problem : Problem) (v : ℕ → Bool) (path : Text → Text → Statement)
        (condition : Text → Condition → Statement) (table : Table) (graph : Content)
        → SpellsProblem problem v path condition table graph
        → HasVariants problem table → all_say v path condition table
        (λ name. where_built name (variants_rule problem (variants_of table name) name))
        (table_names table) ≡ keeps rules.Variant problem graph }
    ensures compiler { (problem : Problem) (v : ℕ → Bool) (path : Text → Text → Statement)
        (condition : Text → Condition → Statement) (table : Table) (graph : Content)
        → SpellsProblem problem v path condition table graph
        → all_say v path condition table
        (λ name. where_built name (known_rule (compiler_rule problem name)))
        (table_names table) ≡ keeps rules.Compiler problem graph }
    ensures machine { (problem : Problem) (v : ℕ → Bool) (path : Text → Text → Statement)
        (condition : Text → Condition → Statement) (table : Table) (graph : Content)
        → SpellsProblem problem v path condition table graph
        → all_say v path condition table
        (λ name. where_built name (known_rule (machine_rule problem name)))
        (table_names table) ≡ keeps rules.Machine problem graph }
    ensures extra_edge { (problem : Problem) (v : ℕ → Bool) (path : Text → Text → Statement)
        (condition : Text → Condition → Statement) (table : Table) (graph : Content)
        → SpellsProblem problem v path condition table graph
        → all_say v path condition table
        (λ name. where_built name (extra_edges_rule problem (names_for table)
        (virtuals_on table name) (children_of table name) name))
        (table_names table) ≡ keeps rules.ExtraEdge problem graph }
    ensures kept { (problem : Problem) (v : ℕ → Bool) (path : Text → Text → Statement)
        (condition : Text → Condition → Statement) (table : Table) (graph : Content)
        → SpellsProblem problem v path condition table graph
        → all_say v path condition table
        (λ name. where_there name (known_rule
        (kept_rule problem (children_of table name) (origins_of table name) name)))
        (table_names table) ≡ keeps rules.Kept problem graph }
    ensures provider { (problem : Problem) (v : ℕ → Bool) (path : Text → Text → Statement)
        (condition : Text → Condition → Statement) (table : Table) (graph : Content)
        → SpellsProblem problem v path condition table graph
        → all_say v path condition table
        (λ name. of_provider (names_for table) (λ p. known_rule (provider_rule problem p)) name)
        (virtuals_of table) ≡ keeps rules.Provider problem graph }
    ensures used { (problem : Problem) (v : ℕ → Bool) (path : Text → Text → Statement)
        (condition : Text → Condition → Statement) (table : Table) (graph : Content)
        → SpellsProblem problem v path condition table graph
        → all_say v path condition table
        (λ name. of_provider (names_for table) (used_rule (may_use table) (table_names table)) name)
        (virtuals_of table) ≡ keeps rules.UnusedProvider problem graph }
    ensures together { (problem : Problem) (v : ℕ → Bool) (path : Text → Text → Statement)
        (condition : Text → Condition → Statement) (table : Table) (graph : Content)
        → SpellsProblem problem v path condition table graph
        → all_say v path condition table
        (λ name. of_provider (names_for table) (together_rule problem (names_for table)) name)
        (virtuals_of table) ≡ keeps rules.Together problem graph }
    ensures no_cycle { (problem : Problem) (v : ℕ → Bool) (path : Text → Text → Statement)
        (condition : Text → Condition → Statement) (table : Table) (graph : Content)
        → SpellsProblem problem v path condition table graph
        → all_say v path condition table
        (λ name. where_there name (known_rule (no_cycle_rule problem name)))
        (table_names table) ≡ keeps rules.Cycle problem graph }
    ensures reachable { (problem : Problem) (v : ℕ → Bool) (path : Text → Text → Statement)
        (condition : Text → Condition → Statement) (table : Table) (graph : Content)
        → SpellsProblem problem v path condition table graph
        → all_say v path condition table
        (λ name. where_there name (known_rule (reachable_rule problem name)))
        (table_names table) ≡ keeps rules.Unreachable problem graph }
{}
