//! Some rows by computation. The bodies are empty: what is proved are the contracts.

ghost use Rattle.std.specs.Prelude.{◌≡◌, true, false, [], ◌∷◌, codes, Some, None, Ok, Err};
ghost use Rattle.recipe_lexer.specs.Layout.{token};
ghost use Rattle.recipe_lexer.specs.declared.token.TokenKind.TheVariants as kind;
ghost use Rattle.recipe_values.specs.Strings.{string, strings};
ghost use Rattle.recipe_values.specs.Values.{one};
ghost use Rattle.recipe_values.specs.Worked.{values_in, keywords_in, values_behind_keywords, reading, member};
ghost use Rattle.recipe_values.specs.declared.value.Scalar.TheVariants.{Text, Number, Truth, Nothing, Nested};
ghost use Rattle.recipe_values.specs.declared.value.Value.TheVariants.{One, Many};

/// The texts that strings stand for.
#[tactic(auto, unfolding(crate::specs::Strings::string, crate::specs::Strings::strings, crate::specs::Strings::decoded))]
pub fn worked_strings()
    ensures plain { string (codes "\"a'b\"") (token kind.Text 0 5) ≡ Ok (codes "a'b") }
    ensures raw { string (codes "r'a\\n'") (token kind.Text 0 6) ≡ Ok (codes "a\\n") }
    ensures escapes { string (codes "'a\\n\\t\\\\\\'\\\"\\\nb'") (token kind.Text 0 16) ≡
        Ok (codes "a\n\t\\'\"b") }
    ensures triple { string (codes "'''a''b'''") (token kind.Text 0 10) ≡ Ok (codes "a''b") }
    ensures nothing { string (codes "''") (token kind.Text 0 2) ≡ Ok [] }
    // An escape that is none, at its backslash; the first one counts.
    ensures escape { string (codes "x='ab\\x\\y'") (token kind.Text 2 10) ≡ Err 5 }
    ensures octal { string (codes "'\\0'") (token kind.Text 0 4) ≡ Err 1 }
    // A prefix other than a small `r`, at the string.
    ensures format { string (codes "f'a'") (token kind.Text 0 4) ≡ Err 0 }
    ensures capital { string (codes " R'a'") (token kind.Text 1 5) ≡ Err 1 }
    ensures two_letters { string (codes "rb'a'") (token kind.Text 0 5) ≡ Err 0 }
    ensures joined { strings (codes "'a' r\"b\"") (token kind.Text 0 3 ∷ token kind.Text 4 8 ∷ []) ≡
        Ok (codes "ab") }
{}

/// The values of arguments, or the places of what is none.
#[tactic(auto, unfolding(recipe_lexer::specs::Layout::text_tokens, recipe_lexer::specs::Layout::text_pieces, recipe_lexer::specs::Layout::lay, recipe_lexer::specs::Layout::step, recipe_lexer::specs::Layout::begin, recipe_lexer::specs::Layout::indented, recipe_lexer::specs::Layout::indent, recipe_lexer::specs::Layout::bracket, recipe_lexer::specs::Layout::finish, recipe_lexer::specs::Pieces::first_piece, recipe_lexer::specs::Pieces::solid, recipe_lexer::specs::Pieces::string_piece, recipe_lexer::specs::Pieces::text_end, recipe_lexer::specs::Pieces::closes, recipe_lexer::specs::Pieces::breaks, crate::specs::Strings::string, crate::specs::Strings::decoded, crate::specs::Values::texts, crate::specs::Values::segment_value, crate::specs::Brackets::elements, crate::specs::Brackets::group, crate::specs::Brackets::levels_of, crate::specs::Brackets::arguments_of))]
pub fn worked_values()
    ensures none { values_in (codes "( )") ≡ [] }
    // Words, and a comma that stands last.
    ensures words { values_in (codes "(True, False,None,007,)") ≡ Ok (one 1 (Truth true)) ∷
        Ok (one 7 (Truth false)) ∷ Ok (one 13 Nothing) ∷ Ok (one 18 (Number (codes "007"))) ∷ [] }
    // Strings beside each other.
    ensures joined { values_in (codes "('a' r'\\b'\n\"c\")") ≡
        Ok (one 1 (Text (codes "a\\bc"))) ∷ [] }
    // A value in brackets, with the places of the bracket and of the string.
    ensures around { values_in (codes "(('a'), (( 1 )))") ≡
        Ok (reading (One (Text (codes "a"))) 1 2) ∷
        Ok (reading (One (Number (codes "1"))) 8 11) ∷ [] }
    // A comma makes a tuple, and nothing makes one.
    ensures tuple { values_in (codes "(('a',), ())") ≡
        Ok (reading (Many (member (Text (codes "a")) 2 ∷ [])) 1 1) ∷
        Ok (reading (Many []) 9 9) ∷ [] }
    // Members, of which those that are tuples or lists count as such and no more.
    ensures list { values_in (codes "(['a', (True), ('b', 'c'), []],)") ≡
        Ok (reading (Many (member (Text (codes "a")) 2 ∷ member (Truth true) 7 ∷ member Nested 15 ∷
        member Nested 27 ∷ [])) 1 1) ∷ [] }
    ensures list_of_one { values_in (codes "([None])") ≡
        Ok (reading (Many (member Nothing 2 ∷ [])) 1 1) ∷ [] }
    // Nothing, at the comma or bracket behind it.
    ensures empty { values_in (codes "(,1,,)") ≡
        Err 1 ∷ Ok (one 2 (Number (codes "1"))) ∷ Err 4 ∷ [] }
    ensures empty_member { values_in (codes "((,), [1,,])") ≡ Err 2 ∷ Err 9 ∷ [] }
{}

/// What is no value, at its first byte.
#[tactic(auto, unfolding(recipe_lexer::specs::Layout::text_tokens, recipe_lexer::specs::Layout::text_pieces, recipe_lexer::specs::Layout::lay, recipe_lexer::specs::Layout::step, recipe_lexer::specs::Layout::begin, recipe_lexer::specs::Layout::indented, recipe_lexer::specs::Layout::indent, recipe_lexer::specs::Layout::bracket, recipe_lexer::specs::Layout::finish, recipe_lexer::specs::Pieces::first_piece, recipe_lexer::specs::Pieces::solid, recipe_lexer::specs::Pieces::string_piece, recipe_lexer::specs::Pieces::text_end, recipe_lexer::specs::Pieces::closes, recipe_lexer::specs::Pieces::breaks, crate::specs::Strings::string, crate::specs::Strings::decoded, crate::specs::Values::texts, crate::specs::Values::segment_value, crate::specs::Brackets::elements, crate::specs::Brackets::group, crate::specs::Brackets::levels_of, crate::specs::Brackets::arguments_of))]
pub fn worked_faults()
    ensures words { values_in (codes "(x, none, 1_0, 1a)") ≡ Err 1 ∷ Err 4 ∷ Err 10 ∷ Err 15 ∷ [] }
    ensures signs { values_in (codes "(-1, 'a' + 'b', 'a' % x, 1.5)") ≡
        Err 1 ∷ Err 5 ∷ Err 16 ∷ Err 25 ∷ [] }
    ensures calls { values_in (codes "(f('a'), 'a'.join([]), 'a'[0])") ≡
        Err 1 ∷ Err 9 ∷ Err 23 ∷ [] }
    ensures braces { values_in (codes "({}, {'a': 1}, [{}])") ≡ Err 1 ∷ Err 5 ∷ Err 16 ∷ [] }
    ensures brackets { values_in (codes "(('a') + 'b', ('a' 1), (x), ('a') 'b')") ≡
        Err 1 ∷ Err 15 ∷ Err 24 ∷ Err 28 ∷ [] }
    // Strings and members are read before what stands behind them is looked at, from the left.
    ensures before { values_in (codes "('a\\x' + 1, 'a' + '\\x', ['\\x', y] + 1, [y, '\\x'])") ≡
        Err 3 ∷ Err 12 ∷ Err 26 ∷ Err 40 ∷ [] }
    // A fault in one argument is none of another one.
    ensures apart { values_in (codes "(x, 'a')") ≡ Err 1 ∷ Ok (one 4 (Text (codes "a"))) ∷ [] }
{}

/// Keywords.
#[tactic(auto, unfolding(recipe_lexer::specs::Layout::text_tokens, recipe_lexer::specs::Layout::text_pieces, recipe_lexer::specs::Layout::lay, recipe_lexer::specs::Layout::step, recipe_lexer::specs::Layout::begin, recipe_lexer::specs::Layout::indented, recipe_lexer::specs::Layout::indent, recipe_lexer::specs::Layout::bracket, recipe_lexer::specs::Layout::finish, recipe_lexer::specs::Pieces::first_piece, recipe_lexer::specs::Pieces::solid, recipe_lexer::specs::Pieces::string_piece, recipe_lexer::specs::Pieces::text_end, recipe_lexer::specs::Pieces::closes, recipe_lexer::specs::Pieces::breaks, crate::specs::Strings::string, crate::specs::Strings::decoded, crate::specs::Values::texts, crate::specs::Values::segment_value, crate::specs::Brackets::elements, crate::specs::Brackets::group, crate::specs::Brackets::levels_of, crate::specs::Brackets::arguments_of))]
pub fn worked_keywords()
    ensures words { keywords_in (codes "(when='a', 1 = 2)") ≡
        Some (token kind.Word 1 5) ∷ Some (token kind.Word 11 12) ∷ [] }
    ensures others { keywords_in (codes "(x==1, x, 'a'='b', (x)=1, x.y=1, =1, f(x=1))") ≡
        None ∷ None ∷ None ∷ None ∷ None ∷ None ∷ None ∷ [] }
    ensures values { values_behind_keywords (codes "(when='a', type=(\"b\"), x=, y=)") ≡
        Ok (one 6 (Text (codes "a"))) ∷ Ok (reading (One (Text (codes "b"))) 16 17) ∷
        Err 25 ∷ Err 29 ∷ [] }
{}
