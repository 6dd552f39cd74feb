//! Some of the tokens of a file.

ghost use Rattle.std.specs.Prelude.{◌≡◌, take, drop};
ghost use Rattle.recipe_statements.specs.Lines.{word};
ghost use Rattle.recipe_values.specs.Strings.{first_start};
ghost use Rattle.recipe_reader.specs.Recipes.{first_token_word};

use recipe_lexer::{Token, TokenKind};

/// The tokens from a place of the list on.
pub(crate) fn from(tokens: &[Token], first: u64) -> &[Token]
    ensures { result.now ≡ drop first tokens.now }
{
    let first = first as usize;
    if first < tokens.len() {
        &tokens[first..]
    } else {
        &[]
    }
}

/// The tokens up to a place of the list.
pub(crate) fn up_to(tokens: &[Token], stop: u64) -> &[Token]
    ensures { result.now ≡ take stop tokens.now }
{
    let stop = stop as usize;
    if stop < tokens.len() {
        &tokens[..stop]
    } else {
        tokens
    }
}

/// The byte at which the first of some tokens starts.
pub(crate) fn start_of(tokens: &[Token]) -> u64
    ensures { result ≡ first_start tokens.now }
{
    match tokens {
        [] => 0,
        [t, ..] => t.start,
    }
}

/// The text of a word, none for another token.
fn word(bytes: &[u8], token: Token) -> &[u8]
    ensures { result.now ≡ word bytes.now token }
{
    match token.kind {
        TokenKind::Word => token.text(bytes),
        _ => &[],
    }
}

/// The text of the word that the first token is, none for another one.
pub(crate) fn first_word<'a>(bytes: &'a [u8], tokens: &[Token]) -> &'a [u8]
    ensures { result.now ≡ first_token_word bytes.now tokens.now }
{
    match tokens {
        [] => &[],
        [t, ..] => word(bytes, *t),
    }
}
