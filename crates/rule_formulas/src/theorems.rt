//! What holds of these formulas. The bodies are empty: what is proved are the contracts.
ghost use Rattle.std.specs.Prelude.{◌≡◌, Bool, List};
ghost use Rattle.clause_formulas.specs.Statements.{Statement};
ghost use Rattle.recipe_data.specs.OfSpecGrammar.Condition.{Condition};
ghost use Rattle.graph_core.specs.Graphs.{Text};
ghost use Rattle.literal_table.specs.Tables.{Table};
ghost use Rattle.problem.specs.Problems.{Problem};
ghost use Rattle.graph_formulas.specs.Words.{names_for};
ghost use Rattle.graph_formulas.specs.Edges.{extra_edges_rule, used_rule, of_provider};
ghost use Rattle.graph_formulas.specs.Together.{together_rule};
ghost use Rattle.graph_formulas.specs.Variants.{variants_rule};
ghost use Rattle.graph_formulas.specs.Laws.{term_formula};
ghost use Rattle.rule_formulas.specs.Terms.{plain_term, no_conditions};

/// The rules of edges, of providers and of variants speak of no path, but by conditions; those of
/// providers speak of no condition either.
pub fn term_laws()
    ensures extra { (path : Text → Text → Statement) (condition : Text → Condition → Statement)
        (table : Table) (problem : Problem) (virtuals : Text → List Text) (children : List Text)
        (name : Text)
        → term_formula path condition table
        (extra_edges_rule problem (names_for table) virtuals children name)
        ≡ plain_term table condition
        (extra_edges_rule problem (names_for table) virtuals children name) }
    ensures used { (path : Text → Text → Statement) (condition : Text → Condition → Statement)
        (table : Table) (may : Text × Text → Text → Bool) (names : List Text) (virtual : Text)
        → term_formula path condition table
        (of_provider (names_for table) (used_rule may names) virtual)
        ≡ plain_term table no_conditions
        (of_provider (names_for table) (used_rule may names) virtual) }
    ensures together { (path : Text → Text → Statement) (condition : Text → Condition → Statement)
        (table : Table) (problem : Problem) (virtual : Text)
        → term_formula path condition table
        (of_provider (names_for table) (together_rule problem (names_for table)) virtual)
        ≡ plain_term table no_conditions
        (of_provider (names_for table) (together_rule problem (names_for table)) virtual) }
    ensures variants { (path : Text → Text → Statement) (condition : Text → Condition → Statement)
        (table : Table) (problem : Problem) (variants : List Text) (name : Text)
        → term_formula path condition table (variants_rule problem variants name)
        ≡ plain_term table condition (variants_rule problem variants name) }
{}
