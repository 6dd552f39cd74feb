//! The value that a segment is.

ghost use Rattle.std.specs.Prelude.{◌≡◌, ◌==◌, ◌&&◌, nat_lt, length, true, Ok, IfOk};
ghost use Rattle.std.specs.Char.{is_ascii_digit};
ghost use Rattle.std.specs.List.{list_all};
ghost use Rattle.std.specs.Str.{bytes_eq};
ghost use Rattle.recipe_statements.specs.Lines.{word, is_text_kind};
ghost use Rattle.recipe_values.specs.Reads.{Adds, join};
ghost use Rattle.recipe_values.specs.Strings.{string, as_text};
ghost use Rattle.recipe_values.specs.Values.{one, is_digits, word_value, unless_more, atom_text, texts, text_value, plain_value, segment_value};

use crate::text::{Read, add_string, kept, plain_inside};
use crate::{Atom, Pile, PlacedValue, Scalar, Segment, Value};
use plain_data::Word;
use recipe_lexer::{Token, TokenKind};
use std::alloc::{AllocError, Global};

/// Whether a text is this one.
fn is(text: &[u8], wanted: &[u8]) -> bool
    ensures { result ≡ bytes_eq text.now wanted.now }
{
    text == wanted
}

fn is_text(kind: TokenKind) -> bool
    ensures { result ≡ is_text_kind kind }
{
    matches!(kind, TokenKind::Text)
}

/// The text of a word, none for another token.
fn word(bytes: &[u8], token: Token) -> &[u8]
    ensures { result.now ≡ word bytes.now token }
{
    match token.kind {
        TokenKind::Word => token.text(bytes),
        _ => &[],
    }
}

/// A value that is no tuple and no list, and in no bracket.
fn one(place: u64, scalar: Scalar) -> PlacedValue
    ensures { result ≡ one place scalar }
{
    PlacedValue {
        value: Value::One(scalar),
        place,
        token: place,
    }
}

fn are_digits(w: &[u8]) -> bool
    ensures { result ≡ list_all is_ascii_digit w.now }
{
    w.iter().all(|b| b.is_ascii_digit())
}

fn is_number(w: &[u8]) -> bool
    ensures { result ≡ is_digits w.now }
{
    0 < w.len() && are_digits(w)
}

/// A whole number, as it is written.
fn number(alloc: Global, w: &[u8]) -> Result<Word, AllocError>
    requires { is_digits w.now ≡ true }
    ensures { IfOk result (λ number. number ≡ w.now) }
{
    let digits = String::from_utf8_lossy(alloc, w)?;
    Word::new(alloc, digits.as_str())
}

/// The value that a word is.
fn word_value(alloc: Global, place: u64, w: &[u8]) -> Result<Read<PlacedValue>, AllocError>
    ensures { IfOk result (λ read. read ≡ word_value place w.now) }
{
    if is(w, b"True") {
        return Ok(Ok(one(place, Scalar::Truth(true))));
    }
    if is(w, b"False") {
        return Ok(Ok(one(place, Scalar::Truth(false))));
    }
    if is(w, b"None") {
        return Ok(Ok(one(place, Scalar::Nothing)));
    }
    if is_number(w) {
        return Ok(Ok(one(place, Scalar::Number(number(alloc, w)?))));
    }
    Ok(Err(place))
}

/// A value at `place`, which has been read, with what stands behind it.
fn unless_more(place: u64, behind: &Pile<Atom>, read: Read<PlacedValue>) -> Read<PlacedValue>
    ensures { result ≡ unless_more place behind.now read }
{
    match read {
        Ok(reading) if behind.is_empty() => Ok(reading),
        Ok(_) => Err(place),
        Err(fault) => Err(fault),
    }
}

/// Adds the text of an atom, which is to be a string.
fn add_atom(
    text: &mut Vec<u8>,
    bytes: &[u8],
    place: u64,
    atom: &Atom,
) -> Result<Read<()>, AllocError>
    ensures { IfOk result (λ read.
        Adds read text.old.items text.new.items (atom_text bytes.now place atom.now)) }
{
    match atom {
        Atom::Plain(token) if is_text(token.kind) => add_string(text, bytes, *token),
        _ => Ok(Err(place)),
    }
}

/// Adds the texts of atoms, which are to be strings.
fn add_texts(
    text: &mut Vec<u8>,
    bytes: &[u8],
    place: u64,
    atoms: Pile<Atom>,
) -> Result<Read<()>, AllocError>
    ensures { IfOk result (λ read.
        Adds read text.old.items text.new.items (texts bytes.now place atoms)) }
{
    let mut left = atoms;
    'atoms: while let Some(atom) = left.pop() {
        match add_atom(text, bytes, place, &atom)? {
            Ok(()) => {}
            Err(fault) => return Ok(Err(fault)),
        }
    }
    Ok(Ok(()))
}

/// Adds the text of a string and of the strings behind it.
fn add_joined(
    text: &mut Vec<u8>,
    bytes: &[u8],
    token: Token,
    behind: Pile<Atom>,
) -> Result<Read<()>, AllocError>
    ensures { IfOk result (λ read.
        Adds read text.old.items text.new.items (join (string bytes.now token)
        (texts bytes.now token.start behind))) }
{
    match add_string(text, bytes, token)? {
        Ok(()) => {
            let read = add_texts(text, bytes, token.start, behind)?;
            Ok(read)
        }
        Err(fault) => Ok(Err(fault)),
    }
}

/// The text of a string and of the strings behind it.
fn joined(
    alloc: Global,
    bytes: &[u8],
    token: Token,
    behind: Pile<Atom>,
) -> Result<Read<Word>, AllocError>
    ensures { IfOk result (λ read. read ≡ as_text token.start (join (string bytes.now token)
        (texts bytes.now token.start behind))) }
{
    if behind.is_empty() {
        if let Some(text) = plain_inside(bytes, token) {
            return kept(alloc, token.start, text);
        }
    }
    let mut text = Vec::new(alloc);
    match add_joined(&mut text, bytes, token, behind)? {
        Ok(()) => kept(alloc, token.start, text.as_slice()),
        Err(fault) => Ok(Err(fault)),
    }
}

/// A text as a value.
fn text_value(place: u64, text: Read<Word>) -> Read<PlacedValue>
    ensures { result ≡ text_value place text }
{
    match text {
        Ok(text) => Ok(one(place, Scalar::Text(text))),
        Err(fault) => Err(fault),
    }
}

/// A value that begins with a token.
fn plain_value(
    alloc: Global,
    bytes: &[u8],
    token: Token,
    behind: Pile<Atom>,
) -> Result<Read<PlacedValue>, AllocError>
    ensures { IfOk result (λ read. read ≡ plain_value bytes.now token behind) }
{
    if is_text(token.kind) {
        let text = joined(alloc, bytes, token, behind)?;
        return Ok(text_value(token.start, text));
    }
    let read = word_value(alloc, token.start, word(bytes, token))?;
    Ok(unless_more(token.start, &behind, read))
}

/// The value that a segment is.
#[tactic(auto, unfolding(crate::specs::Values::segment_value))]
pub(crate) fn value_of(
    alloc: Global,
    bytes: &[u8],
    segment: Segment,
) -> Result<Read<PlacedValue>, AllocError>
    ensures { IfOk result (λ read. read ≡ segment_value bytes.now segment) }
{
    let Segment { atoms, stop } = segment;
    let mut atoms = atoms;
    match atoms.pop() {
        None => Ok(Err(stop)),
        Some(Atom::Plain(token)) => plain_value(alloc, bytes, token, atoms),
        Some(Atom::Inner(place, read)) => Ok(unless_more(place, &atoms, read)),
    }
}
