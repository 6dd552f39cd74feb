//! Forms of statements: what the tokens of a logical line make it.

ghost use Rattle.std.specs.Prelude.{◌≡◌};
ghost use Rattle.std.specs.Str.{bytes_eq};
ghost use Rattle.recipe_statements.specs.Lines.{word, is_passed_by_start, is_import_word, is_directive, is_passed_call, called, is_end, behind_bracket, call_form, is_definition, first_word, plain_form, class_name, ends_class_head, is_when_head, ends_when_head, closes_head, class_form, head_form};

use crate::token::{are_texts, behind, is, is_colon, is_sign, is_word, texts_len, word};
use recipe_lexer::Token;

/// The form of a line without a block.
#[derive(Clone, Copy, Debug)]
pub enum PlainForm {
    /// It is passed over.
    Passed,
    /// It is the call of a directive.
    Directive,
    /// It is not read.
    Other,
}

/// The form of a line whose block follows.
#[derive(Clone, Copy, Debug)]
pub enum HeadForm {
    /// It is passed over with its block.
    Passed,
    /// It begins a class whose name does not end in `Builder`.
    Class,
    /// `with when(TEXT):`
    When,
    /// It is not read.
    Other,
}

/// `import` and `from`.
fn is_import_word(w: &[u8]) -> bool
    ensures { result ≡ is_import_word w.now }
{
    is(w, b"import") || is(w, b"from")
}

/// Imports, decorators, `pass` and assignments.
fn is_passed_by_start(bytes: &[u8], tokens: &[Token]) -> bool
    ensures { result ≡ is_passed_by_start bytes.now tokens.now }
{
    match tokens {
        [] => false,
        [t] => {
            let w = word(bytes, *t);
            is_import_word(w) || is_sign(b'@', t.kind) || is(w, b"pass")
        }
        [t, u, ..] => {
            is_import_word(word(bytes, *t))
                || is_sign(b'@', t.kind)
                || (is_word(t.kind) && is_sign(b'=', u.kind))
        }
    }
}

/// The directives that are read.
fn is_directive(w: &[u8]) -> bool
    ensures { result ≡ is_directive w.now }
{
    is(w, b"version")
        || is(w, b"variant")
        || is(w, b"depends_on")
        || is(w, b"provides")
        || is(w, b"conflicts")
        || is(w, b"requires")
}

/// The directives that are passed over.
fn is_passed_call(w: &[u8]) -> bool
    ensures { result ≡ is_passed_call w.now }
{
    is(w, b"license")
        || is(w, b"maintainers")
        || is(w, b"patch")
        || is(w, b"resource")
        || is(w, b"filter_compiler_wrappers")
}

/// The name of the call that a line is, none where it is no call.
fn called<'a>(bytes: &'a [u8], tokens: &[Token]) -> &'a [u8]
    ensures { result.now ≡ called bytes.now tokens.now }
{
    match tokens {
        [t, u, rest @ ..] => {
            if is_sign(b'(', u.kind) && ends_call(rest) {
                return word(bytes, *t);
            }
            &[]
        }
        _ => &[],
    }
}

/// Whether the partner of an open bracket is the last token.
fn ends_call(rest: &[Token]) -> bool
    ensures { result ≡ is_end (behind_bracket 0 rest.now) }
{
    match behind(rest) {
        Some([]) => true,
        _ => false,
    }
}

/// What a line is that calls this name.
fn call_form(name: &[u8]) -> PlainForm
    ensures { result ≡ call_form name.now }
{
    if is_directive(name) {
        PlainForm::Directive
    } else if is_passed_call(name) {
        PlainForm::Passed
    } else {
        PlainForm::Other
    }
}

/// Whether a line begins with the word `def`.
fn is_definition(bytes: &[u8], tokens: &[Token]) -> bool
    ensures { result ≡ is_definition bytes.now tokens.now }
{
    match tokens {
        [] => false,
        [t, ..] => is(word(bytes, *t), b"def"),
    }
}

/// The form of a line without a block.
#[tactic(auto, unfolding(crate::specs::Lines::plain_form))]
pub(crate) fn plain_form(bytes: &[u8], tokens: &[Token]) -> PlainForm
    ensures { result ≡ plain_form bytes.now tokens.now }
{
    if are_texts(tokens) || is_definition(bytes, tokens) || is_passed_by_start(bytes, tokens) {
        return PlainForm::Passed;
    }
    call_form(called(bytes, tokens))
}

/// `:`, or `(..):`
fn ends_class_head(tokens: &[Token]) -> bool
    ensures { result ≡ ends_class_head tokens.now }
{
    match tokens {
        [] => false,
        [t, rest @ ..] => {
            if !is_sign(b'(', t.kind) {
                return is_colon(tokens);
            }
            match behind(rest) {
                Some(rest) => is_colon(rest),
                None => false,
            }
        }
    }
}

/// The name of the class whose head a line is, none where it is no such head.
fn class_name<'a>(bytes: &'a [u8], tokens: &[Token]) -> &'a [u8]
    ensures { result.now ≡ class_name bytes.now tokens.now }
{
    match tokens {
        [t, u, rest @ ..] => {
            if is(word(bytes, *t), b"class") && ends_class_head(rest) {
                return word(bytes, *u);
            }
            &[]
        }
        _ => &[],
    }
}

/// `):`
fn closes_head(tokens: &[Token]) -> bool
    ensures { result ≡ closes_head tokens.now }
{
    match tokens {
        [] => false,
        [t, rest @ ..] => is_sign(b')', t.kind) && is_colon(rest),
    }
}

/// Strings beside each other, at least one, and `):`.
fn ends_when_head(tokens: &[Token]) -> bool
    ensures { result ≡ ends_when_head tokens.now }
{
    let count = texts_len(tokens);
    0 < count && closes_head(&tokens[count..])
}

/// `with when(TEXT):`
fn is_when_head(bytes: &[u8], tokens: &[Token]) -> bool
    ensures { result ≡ is_when_head bytes.now tokens.now }
{
    match tokens {
        [t, u, v, rest @ ..] => {
            is(word(bytes, *t), b"with")
                && is(word(bytes, *u), b"when")
                && is_sign(b'(', v.kind)
                && ends_when_head(rest)
        }
        _ => false,
    }
}

fn class_form(name: &[u8]) -> HeadForm
    ensures { result ≡ class_form name.now }
{
    if name.ends_with(b"Builder") {
        HeadForm::Passed
    } else {
        HeadForm::Class
    }
}

/// The form of a line whose block follows.
#[tactic(auto, unfolding(crate::specs::Lines::head_form))]
pub(crate) fn head_form(bytes: &[u8], tokens: &[Token]) -> HeadForm
    ensures { result ≡ head_form bytes.now tokens.now }
{
    if is_definition(bytes, tokens) {
        return HeadForm::Passed;
    }
    if is_when_head(bytes, tokens) {
        return HeadForm::When;
    }
    let name = class_name(bytes, tokens);
    if name.is_empty() {
        return HeadForm::Other;
    }
    class_form(name)
}
