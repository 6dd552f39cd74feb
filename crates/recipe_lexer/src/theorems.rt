//! What holds of all files, and some rows by computation. The bodies are empty: what is proved are the
//! contracts.

ghost use Rattle.std.specs.Prelude.{◌≡◌, ◌≢◌, ℕ, List, [], ◌∷◌, ◌++◌, length, codes, Ok, Err, IfOk};
ghost use Rattle.recipe_lexer.specs.Layout.{text_pieces, token, text_tokens, tokens};
ghost use Rattle.recipe_lexer.specs.Order.{InOrder, IsCut, AreWhole};
ghost use Rattle.recipe_lexer.specs.declared.token.Token.{Token};
ghost use Rattle.recipe_lexer.specs.declared.token.LexFault.{LexFault};
ghost use Rattle.recipe_lexer.specs.declared.token.TokenKind.TheVariants.{Word, Text, Op, NewLine, Indent, Dedent, End};
ghost use Rattle.recipe_lexer.specs.declared.token.LexFault.TheVariants.{NotUtf8, OpenString, OpenBracket, BadIndent};

/// The tokens of some files, or their faults, by computation.
#[tactic(auto, unfolding(crate::specs::Layout::text_tokens, crate::specs::Layout::text_pieces, crate::specs::Layout::lay, crate::specs::Layout::step, crate::specs::Layout::begin, crate::specs::Layout::indented, crate::specs::Layout::indent, crate::specs::Layout::bracket, crate::specs::Layout::finish, crate::specs::Pieces::first_piece, crate::specs::Pieces::solid, crate::specs::Pieces::string_piece, crate::specs::Pieces::text_end, crate::specs::Pieces::closes, crate::specs::Pieces::breaks))]
pub fn worked_tokens()
    // A string that its line does not end.
    ensures unclosed { text_tokens (codes "class X(Package):\n    version(\"1.0)\n")
        ≡ Err (OpenString 30) }
    // No text.
    ensures empty { text_tokens ([]) ≡ Ok (token End 0 0 ∷ []) }
    // Blank lines and comment lines, with tabs, give nothing.
    ensures blank { text_tokens (codes "\n  " ++ 9 ∷ codes "\n" ++ 12 ∷ codes "\n # a\n") ≡
        Ok (token End 12 12 ∷ []) }
    // The last line may lack its end.
    ensures no_line_end { text_tokens (codes "a") ≡
        Ok (token Word 0 1 ∷ token NewLine 1 1 ∷ token End 1 1 ∷ []) }
    // Prefixes, and words that are none.
    ensures prefix { text_tokens (codes "rb'a' xr'b' bru'' f'{x}'") ≡
        Ok (token Text 0 5 ∷ token Word 6 8 ∷ token Text 8 11 ∷ token Word 12 15 ∷
        token Text 15 17 ∷ token Text 18 24 ∷ token NewLine 24 24 ∷ token End 24 24 ∷ []) }
    // Three marks.
    ensures triple { text_tokens (codes "'''a'\n''b\\''''c") ≡
        Ok (token Text 0 14 ∷ token Word 14 15 ∷ token NewLine 15 15 ∷ token End 15 15 ∷ []) }
    // A backslash takes the next byte with it, a line end too.
    ensures escapes { text_tokens (codes "'\\'' '\\\n'") ≡
        Ok (token Text 0 4 ∷ token Text 5 9 ∷ token NewLine 9 9 ∷ token End 9 9 ∷ []) }
    // A backslash joins lines at a line feed alone.
    ensures join { text_tokens (codes "a \\\n  b\\" ++ 13 ∷ codes "\n") ≡
        Ok (token Word 0 1 ∷ token Word 6 7 ∷ token (Op 92) 7 8 ∷ token NewLine 9 10 ∷
        token End 10 10 ∷ []) }
    // No lines inside brackets.
    ensures brackets { text_tokens (codes "(a\n" ++ 9 ∷ codes "[b]\n # c\n)\n") ≡
        Ok (token (Op 40) 0 1 ∷ token Word 1 2 ∷ token (Op 91) 4 5 ∷ token Word 5 6 ∷
        token (Op 93) 6 7 ∷ token (Op 41) 13 14 ∷ token NewLine 14 15 ∷ token End 15 15 ∷ []) }
    // A bracket that fits not the innermost open one.
    ensures wrong_bracket { text_tokens (codes "(]") ≡ Err (OpenBracket 1) }
    // An open bracket comes last.
    ensures open_yields { text_tokens (codes "(\n)a\n  b") ≡ Err (BadIndent 5) }
    // A tab comes before a return to no line.
    ensures tab_first { text_tokens (codes "if:\n    a\n  " ++ 9 ∷ codes "b\n")
        ≡ Err (BadIndent 12) }
    // Deeper without a colon.
    ensures deeper { text_tokens (codes "a\n  b\n") ≡ Err (BadIndent 2) }
    // A return to no earlier indentation.
    ensures no_return { text_tokens (codes "a:\n    b\n  c\n") ≡ Err (BadIndent 9) }
    // Two blocks end at once.
    ensures two_back { text_tokens (codes "a:\n b:\n  c\nd") ≡
        Ok (token Word 0 1 ∷ token (Op 58) 1 2 ∷ token NewLine 2 3 ∷ token Indent 3 4 ∷
        token Word 4 5 ∷ token (Op 58) 5 6 ∷ token NewLine 6 7 ∷ token Indent 7 9 ∷
        token Word 9 10 ∷ token NewLine 10 11 ∷ token Dedent 11 11 ∷ token Dedent 11 11 ∷
        token Word 11 12 ∷ token NewLine 12 12 ∷ token End 12 12 ∷ []) }
{}

/// What holds of all files: a file has tokens or a fault, and one of them. Its tokens stand in order,
/// each a slice of the file, and make whole lines, blocks and brackets.
pub fn laws()
    ensures one_list { (bytes : List ℕ) (a b : List Token) → tokens bytes ≡ Ok a
        → tokens bytes ≡ Ok b → a ≡ b }
    ensures one_fault { (bytes : List ℕ) (a b : LexFault) → tokens bytes ≡ Err a
        → tokens bytes ≡ Err b → a ≡ b }
    ensures either { (bytes : List ℕ) (a : List Token) (fault : LexFault) → tokens bytes ≡ Ok a →
        tokens bytes ≢ Err fault }
    ensures in_order { (bytes : List ℕ)
        → IfOk (tokens bytes) (λ found. InOrder 0 (length bytes) found) }
    // Each line has a token that is no block's; a block begins and ends before the first one of a line,
    // a closing bracket fits the innermost open one, and all that begins ends.
    ensures whole { (bytes : List ℕ) → IfOk (tokens bytes) (λ found. AreWhole found) }
    // The pieces cover the file.
    ensures cut { (bytes : List ℕ) → IsCut 0 (length bytes) (text_pieces 0 0 bytes) }
{}
