// The rows are the formulas of their rules. The bodies are empty: what is proved are the contracts.
ghost use Rattle.std.specs.Prelude.{◌≡◌, map};
ghost use Rattle.clause_formulas.specs.Statements.{Statement, all_statements};
ghost use Rattle.recipe_data.specs.OfSpecGrammar.Condition.{Condition};
ghost use Rattle.graph_core.specs.Graphs.{Text};
ghost use Rattle.problem.specs.Problems.{Problem};
ghost use Rattle.literal_table.specs.Tables.{Table};
ghost use Rattle.graph_formulas.specs.Words.{names_for};
ghost use Rattle.graph_formulas.specs.Terms.{known_rule, where_built, where_there};
ghost use Rattle.graph_formulas.specs.Built.{buildable_rule, version_rule, compiler_rule, machine_rule, provider_rule};
ghost use Rattle.graph_formulas.specs.Edges.{of_provider};
ghost use Rattle.graph_formulas.specs.Kept.{kept_rule, origins_of};
ghost use Rattle.graph_formulas.specs.Laws.{term_formula, table_names, virtuals_of, children_of};
ghost use Rattle.node_formulas.specs.Rows.{built_row, there_row, provided_row};
ghost use Rattle.word_formulas.specs.Builders.{plain_said};

/// The rows are the formulas of their rules, for all formulas of paths and conditions.
pub fn row_laws()
    ensures buildable { (path : Text → Text → Statement) (condition : Text → Condition → Statement)
        (t : Table) (problem : Problem)
        → all_statements (map (λ name. term_formula path condition t
        (where_built name (known_rule (buildable_rule problem name)))) (table_names t))
        ≡ built_row t (λ name. plain_said t (buildable_rule problem name)) }
    ensures version { (path : Text → Text → Statement) (condition : Text → Condition → Statement)
        (t : Table) (problem : Problem)
        → all_statements (map (λ name. term_formula path condition t
        (where_built name (known_rule (version_rule problem name)))) (table_names t))
        ≡ built_row t (λ name. plain_said t (version_rule problem name)) }
    ensures compiler { (path : Text → Text → Statement) (condition : Text → Condition → Statement)
        (t : Table) (problem : Problem)
        → all_statements (map (λ name. term_formula path condition t
        (where_built name (known_rule (compiler_rule problem name)))) (table_names t))
        ≡ built_row t (λ name. plain_said t (compiler_rule problem name)) }
    ensures machine { (path : Text → Text → Statement) (condition : Text → Condition → Statement)
        (t : Table) (problem : Problem)
        → all_statements (map (λ name. term_formula path condition t
        (where_built name (known_rule (machine_rule problem name)))) (table_names t))
        ≡ built_row t (λ name. plain_said t (machine_rule problem name)) }
    ensures kept { (path : Text → Text → Statement) (condition : Text → Condition → Statement)
        (t : Table) (problem : Problem)
        → all_statements (map (λ name. term_formula path condition t (where_there name
        (known_rule (kept_rule problem (children_of t name) (origins_of t name) name))))
        (table_names t))
        ≡ there_row t (λ name. plain_said t
        (kept_rule problem (children_of t name) (origins_of t name) name)) }
    ensures provider { (path : Text → Text → Statement) (condition : Text → Condition → Statement)
        (t : Table) (problem : Problem)
        → all_statements (map (λ virtual. term_formula path condition t
        (of_provider (names_for t) (λ p. known_rule (provider_rule problem p)) virtual))
        (virtuals_of t))
        ≡ provided_row t (λ p. plain_said t (provider_rule problem p)) }
{}
