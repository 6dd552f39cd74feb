//! What holds of all lists of tokens. The bodies are empty: what is proved are the contracts.

ghost use Rattle.std.specs.Prelude.{◌≡◌, ◌≢◌, ℕ, List, length, Ok, Err, IfOk};
ghost use Rattle.recipe_statements.specs.Statements.{items};
ghost use Rattle.recipe_statements.specs.Order.{AreInOrder, AreNested};
ghost use Rattle.recipe_lexer.specs.declared.token.Token.{Token};
ghost use Rattle.recipe_statements.specs.declared.item.ClassItem.{ClassItem};
ghost use Rattle.recipe_statements.specs.declared.item.StatementFault.{StatementFault};

/// Tokens make items or a fault, and one of them. Items stand in order, each a part of the list of tokens.
/// An item stands in one head more than the item before it at most, and in more than that one only where
/// that is a head.
pub fn laws()
    ensures one_list { (bytes : List ℕ) (tokens : List Token) (a b : List ClassItem) →
        items bytes tokens ≡ Ok a → items bytes tokens ≡ Ok b → a ≡ b }
    ensures one_fault { (bytes : List ℕ) (tokens : List Token) (a b : StatementFault) →
        items bytes tokens ≡ Err a → items bytes tokens ≡ Err b → a ≡ b }
    ensures either { (bytes : List ℕ) (tokens : List Token) (a : List ClassItem)
        (fault : StatementFault)
        →
        items bytes tokens ≡ Ok a → items bytes tokens ≢ Err fault }
    ensures in_order { (bytes : List ℕ) (tokens : List Token) →
        IfOk (items bytes tokens) (λ found. AreInOrder 0 (length tokens) found) }
    ensures nested { (bytes : List ℕ) (tokens : List Token) →
        IfOk (items bytes tokens) (λ found. AreNested 0 found) }
{}
