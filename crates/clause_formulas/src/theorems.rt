//! What holds of all formulas and rules, and worked rows by computation.
ghost use Rattle.std.specs.Prelude.{◌≡◌, ◌<◌, ℕ, Bool, true, false, not, ◌&&◌, ◌||◌, List, [], ◌∷◌};
ghost use Rattle.clause_store.specs.declared.Lit.{Lit};
ghost use Rattle.clause_store.specs.declared.Label.TheVariants.{Structure, Demand};
ghost use Rattle.clause_store.specs.Lits.{negation, AllBelow};
ghost use Rattle.clause_circuits.specs.Gates.{lit_of, labelled};
ghost use Rattle.clause_formulas.specs.declared.defined.Defined.TheVariants.{Known, By};
ghost use Rattle.clause_formulas.specs.Statements.{Statement, atom, never, eval, opposite, any_statement, all_statements, both_statements, implication_of, one_of, all_eval, one_true, truths, SaidBelow};
ghost use Rattle.clause_formulas.specs.Rules.{Proposition, keeps_rule, in_words};
ghost use Rattle.clause_formulas.specs.Gated.{Gated, gated, bare};
ghost use Rattle.clause_formulas.specs.Built.{define_in, define_all_in, define_on, assert_on, demand_in, demand_all_in};
ghost use Rattle.clause_formulas.specs.Rows.{a, b, c, start, made, shared, entries_of, with_entries, structures};

/// The words of formulas say what their names say.
pub fn word_laws()
    ensures negated { (v : ℕ → Bool) (f : Statement) → eval v (opposite f) ≡ not (eval v f) }
    ensures all { (v : ℕ → Bool) (fs : List Statement)
        → eval v (all_statements fs) ≡ all_eval v fs }
    ensures both { (v : ℕ → Bool) (f g : Statement)
        → eval v (both_statements f g) ≡ (eval v f && eval v g) }
    ensures implies { (v : ℕ → Bool) (f g : Statement)
        → eval v (implication_of f g) ≡ (not (eval v f) || eval v g) }
    ensures one { (v : ℕ → Bool) (ls : List Lit) → eval v (one_of ls) ≡ one_true (truths v ls) }
    ensures all_in_range { (n : ℕ) (fs : List Statement) → SaidBelow n (any_statement fs)
        → SaidBelow n (all_statements fs) }
    ensures one_in_range { (n : ℕ) (ls : List Lit) → AllBelow n ls → SaidBelow n (one_of ls) }
{}

/// A rule over words is said by its formula, where each word's formula says the fact, and has no
/// variables but those of the words.
pub fn rule_laws<W>()
    ensures said { (v : ℕ → Bool) (f : W → Statement) (p : W → Bool)
        → ((w : W) → eval v (f w) ≡ p w) → (r : Proposition W)
        → eval v (in_words f r) ≡ keeps_rule p r }
    ensures in_range { (n : ℕ) (f : W → Statement) → ((w : W) → SaidBelow n (f w))
        → (r : Proposition W)
        → SaidBelow n (in_words f r) }
{}

/// A formula that was defined has its value again, whatever was defined since, and adds nothing.
pub fn gate_laws()
    ensures again { (s : Gated) (f g : Statement)
        → define_in (define_in (define_in s f).state g).state f
        ≡ record {
          state = (define_in (define_in s f).state g).state;
          answer = (define_in s f).answer;
        } }
{}

/// Two literals take one variable; one that is said twice beside a constant, and constants, none.
#[tactic(auto, unfolding(crate::specs::Built::define_on, crate::specs::Built::define_in, crate::specs::Built::named_in, crate::specs::Built::or_in, crate::specs::Built::or_on, clause_circuits::specs::Gates::kept_clauses))]
pub fn worked_values()
    ensures two { define_on start (any_statement (atom a ∷ atom b ∷ []))
        ≡ made ((negation a ∷ lit_of 3 ∷ []) ∷ (negation b ∷ lit_of 3 ∷ [])
        ∷ (a ∷ b ∷ negation (lit_of 3) ∷ []) ∷ []) 4 (By (lit_of 3)) }
    ensures one { define_on start (any_statement
        (atom a ∷ never ∷ atom a ∷ all_statements (atom a ∷ []) ∷ []))
        ≡ made [] 3 (By a) }
    ensures always { define_on start (any_statement (all_statements [] ∷ atom a ∷ []))
        ≡ made [] 3 (Known true) }
    ensures both_signs { define_on start (all_statements (atom a ∷ atom (negation a) ∷ []))
        ≡ made [] 3 (Known false) }
{}

/// An implication is one clause, exactly one of three four, and a demand that of one literal.
#[tactic(auto, unfolding(crate::specs::Built::define_in, crate::specs::Built::demand_in, crate::specs::Built::with_draft, crate::specs::Built::named_in, crate::specs::Built::or_in, crate::specs::Built::or_on, clause_circuits::specs::Gates::kept_clauses))]
pub fn worked_claims()
    ensures implication { assert_on Structure start true
        (implication_of (both_statements (atom a) (atom b)) (any_statement (atom c ∷ never ∷ [])))
        ≡ with_entries (structures ((negation a ∷ negation b ∷ c ∷ []) ∷ [])) 3 }
    ensures one_of_three { assert_on Structure start true (one_of (a ∷ b ∷ c ∷ []))
        ≡ with_entries (structures ((a ∷ b ∷ c ∷ []) ∷ (negation a ∷ negation b ∷ [])
        ∷ (negation a ∷ negation c ∷ []) ∷ (negation b ∷ negation c ∷ []) ∷ [])) 3 }
    ensures single { demand_in (bare start) (atom a) 7
        ≡ bare (with_entries (labelled (Demand 7) (a ∷ []) ∷ []) 3) }
{}

/// The same two literals, in either order and under either sign, take one variable; a part that
/// stands twice in a formula takes one: twelve clauses, where a gate for each time made fifteen.
#[tactic(auto, unfolding(crate::specs::Built::define_in, crate::specs::Built::demand_in, crate::specs::Built::with_draft, crate::specs::Built::named_in, crate::specs::Built::or_in, crate::specs::Built::or_on, clause_circuits::specs::Gates::kept_clauses))]
pub fn worked_gates()
    ensures once { define_all_in (bare start) (any_statement (atom a ∷ atom b ∷ [])
        ∷ any_statement (atom b ∷ atom a ∷ [])
        ∷ all_statements (atom (negation a) ∷ atom (negation b) ∷ []) ∷ [])
        ≡ shared ((negation a ∷ lit_of 3 ∷ []) ∷ (negation b ∷ lit_of 3 ∷ [])
        ∷ (a ∷ b ∷ negation (lit_of 3) ∷ []) ∷ []) 4 ((a ∷ b ∷ [], lit_of 3) ∷ [])
        (By (lit_of 3) ∷ By (lit_of 3) ∷ By (negation (lit_of 3)) ∷ []) }
    ensures within { entries_of (define_in (bare start)
        (any_statement (both_statements (any_statement (atom a ∷ atom b ∷ [])) (atom c)
        ∷ both_statements (any_statement (atom b ∷ atom a ∷ [])) (atom (negation c)) ∷ []))) ≡ 12 }
{}
