//! What holds of all lists of literals. The bodies are empty: what is proved are the contracts.
ghost use Rattle.std.specs.Prelude.{◌≡◌, ℕ, Bool, List, length};
ghost use Rattle.clause_store.specs.declared.Lit.{Lit};
ghost use Rattle.clause_store.specs.Lits.{AllBelow};
ghost use Rattle.clause_store.specs.declared.Label.TheVariants.{Structure};
ghost use Rattle.clause_formulas.specs.Statements.{any_statement, eval, all_eval, one_true, one_of, truths, SaidBelow};
ghost use Rattle.clause_formulas.specs.Built.{assert_on};
ghost use Rattle.clause_formulas.specs.Few.{few_true, few_of, one_among, some_lits, clauses_of};

/// The formulas say that at most one literal, and exactly one, is true, and are over its variables.
pub fn few_laws()
    ensures few { (v : ℕ → Bool) (times : ℕ) (lits : List Lit)
        → all_eval v (few_of times lits) ≡ few_true (truths v lits) }
    ensures one { (v : ℕ → Bool) (lits : List Lit)
        → eval v (one_among lits) ≡ one_true (truths v lits) }
    ensures few_below { (n times : ℕ) (lits : List Lit) → AllBelow n lits
        → SaidBelow n (any_statement (few_of times lits)) }
    ensures one_below { (n : ℕ) (lits : List Lit) → AllBelow n lits → SaidBelow n (one_among lits) }
{}

/// What exactly one of a list costs when it is asserted: clauses, beside those of all pairs.
#[tactic(auto, unfolding(crate::specs::Few::few_of, crate::specs::Built::with_draft, crate::specs::Built::covered_on, crate::specs::Built::cover_on, clause_circuits::specs::Gates::kept_clauses))]
pub fn worked_lists()
    ensures eight { clauses_of (one_among (some_lits 8)) ≡ 29 }
    ensures twelve { clauses_of (one_among (some_lits 12)) ≡ 44 }
    ensures twelve_pairs { clauses_of (one_of (some_lits 12)) ≡ 67 }
    ensures forty { clauses_of (one_among (some_lits 40)) ≡ 208 }
    ensures forty_pairs { clauses_of (one_of (some_lits 40)) ≡ 781 }
{}
