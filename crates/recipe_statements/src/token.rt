//! Tokens: what they are and say, and the brackets among them.

ghost use Rattle.std.specs.Prelude.{◌≡◌, ◌<◌, ◌≤◌, ◌+◌, ◌^◌, length, IfSome};
ghost use Rattle.std.specs.List.{prefix_len};
ghost use Rattle.std.specs.Option.{option_copied};
ghost use Rattle.std.specs.Str.{bytes_eq};
ghost use Rattle.recipe_statements.specs.Lines.{word, is_word_kind, is_text_kind, is_sign, turned, behind_bracket, are_texts, is_lone_colon};

use recipe_lexer::{Token, TokenKind};

/// Whether a text is this one.
pub(crate) fn is(text: &[u8], wanted: &[u8]) -> bool
    ensures { result ≡ bytes_eq text.now wanted.now }
{
    text == wanted
}

/// The text of a word, none for another token.
pub(crate) fn word(bytes: &[u8], token: Token) -> &[u8]
    ensures { result.now ≡ word bytes.now token }
{
    match token.kind {
        TokenKind::Word => token.text(bytes),
        _ => &[],
    }
}

pub(crate) fn is_word(kind: TokenKind) -> bool
    ensures { result ≡ is_word_kind kind }
{
    matches!(kind, TokenKind::Word)
}

fn is_text(kind: TokenKind) -> bool
    ensures { result ≡ is_text_kind kind }
{
    matches!(kind, TokenKind::Text)
}

/// Whether a token is this sign.
pub(crate) fn is_sign(sign: u8, kind: TokenKind) -> bool
    ensures { result ≡ is_sign sign kind }
{
    match kind {
        TokenKind::Op(b) => b == sign,
        _ => false,
    }
}

/// Whether a line is `:` alone.
pub(crate) fn is_colon(tokens: &[Token]) -> bool
    ensures { result ≡ is_lone_colon tokens.now }
{
    match tokens {
        [t] => is_sign(b':', t.kind),
        _ => false,
    }
}

/// Whether all tokens are strings.
pub(crate) fn are_texts(tokens: &[Token]) -> bool
    ensures { result ≡ are_texts tokens.now }
{
    texts_len(tokens) == tokens.len()
}

/// How many strings stand beside each other at the front.
pub(crate) fn texts_len(tokens: &[Token]) -> usize
    ensures bound { result ≤ length tokens.now }
    ensures value { result ≡ prefix_len (λ t. is_text_kind t.kind) tokens.now }
{
    tokens.iter().take_while(|t| is_text(t.kind)).count()
}

/// How many brackets are open behind a token inside an open one, where `inner` are before it; None where the
/// token closes that one.
fn turned(inner: usize, kind: TokenKind) -> Option<usize>
    requires { inner + 1 < 2 ^ 64 }
    ensures bound { IfSome result (λ now. now ≤ inner + 1) }
    ensures value { result ≡ turned inner kind }
{
    let TokenKind::Op(b) = kind else {
        return Some(inner);
    };
    match b {
        b'(' | b'[' | b'{' => Some(inner + 1),
        b')' | b']' | b'}' if inner == 0 => None,
        b')' | b']' | b'}' => Some(inner - 1),
        _ => Some(inner),
    }
}

/// What stands behind the partner of an open bracket, where the tokens begin behind that one.
pub(crate) fn behind(tokens: &[Token]) -> Option<&[Token]>
    ensures { behind_bracket 0 tokens.now ≡ option_copied result }
{
    let mut inner = 0usize;
    for (i, token) in tokens.iter().enumerate() {
        match turned(inner, token.kind) {
            None => return Some(&tokens[i + 1..]),
            Some(now) => inner = now,
        }
    }
    None
}
