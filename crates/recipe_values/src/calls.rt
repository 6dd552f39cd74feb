//! The calls of this crate.

ghost use Rattle.std.specs.Prelude.{◌≡◌, ◌&&◌, ◌==◌, not, Ok, IfOk, IfErr};
ghost use Rattle.std.specs.List.{slice_get};
ghost use Rattle.recipe_values.specs.Reads.{Fails};
ghost use Rattle.recipe_values.specs.Strings.{first_start, strings_text};
ghost use Rattle.recipe_values.specs.Values.{atom_place, place_of, segment_value};
ghost use Rattle.recipe_values.specs.Brackets.{arguments_of};
ghost use Rattle.recipe_values.specs.Arguments.{is_equals, is_equals_at, word_token_by, keyword_of, without_keyword};

use crate::brackets::segments;
use crate::levels::levels_of;
use crate::text::{Read, add_strings, kept};
use crate::{Atom, Pile, PlacedValue, Segment, ValueFault, values};
use plain_data::Word;
use recipe_lexer::{Token, TokenKind};
use std::alloc::{AllocError, Global};

/// What stands between the commas of a call. `tokens` are those between its brackets, the closing one of
/// which is at the place `stop`; they and `bytes` are those of one file. A comma may stand last. Brackets in
/// the call are read here: each holds its value or the place of what is no value in it, so that only faults
/// in what a caller looks at count.
#[tactic(auto, unfolding(crate::specs::Brackets::arguments_of))]
pub fn arguments(
    alloc: Global,
    bytes: &[u8],
    tokens: &[Token],
    stop: u64,
) -> Result<Pile<Segment>, AllocError>
    ensures { IfOk result (λ found. found ≡ arguments_of bytes.now stop tokens.now) }
{
    let levels = levels_of(alloc, bytes, tokens, stop)?;
    segments(levels.inner)
}

/// The value that a segment is: strings beside each other, `True`, `False`, `None`, a whole number, a tuple
/// or list of values, or a value in brackets.
pub fn read_value(alloc: Global, bytes: &[u8], segment: Segment) -> Result<PlacedValue, ValueFault>
    ensures found { IfOk result (λ reading. segment_value bytes.now segment ≡ Ok reading) }
    ensures fault { IfErr result (λ fault. Fails fault (segment_value bytes.now segment)) }
{
    match values::value_of(alloc, bytes, segment)? {
        Ok(reading) => Ok(reading),
        Err(place) => Err(ValueFault::Unsupported(place)),
    }
}

/// The text of strings beside each other, or the place of what is not read in them.
#[tactic(auto, unfolding(crate::specs::Strings::strings_text))]
fn joined(alloc: Global, bytes: &[u8], tokens: &[Token]) -> Result<Read<Word>, AllocError>
    ensures { IfOk result (λ read. read ≡ strings_text bytes.now tokens.now) }
{
    let mut text = Vec::new(alloc);
    match add_strings(&mut text, bytes, tokens)? {
        Ok(()) => kept(alloc, start_of(tokens), text.as_slice()),
        Err(fault) => Ok(Err(fault)),
    }
}

/// The text of strings beside each other.
pub fn read_text(alloc: Global, bytes: &[u8], tokens: &[Token]) -> Result<Word, ValueFault>
    ensures found { IfOk result (λ text. strings_text bytes.now tokens.now ≡ Ok text) }
    ensures fault { IfErr result (λ fault. Fails fault (strings_text bytes.now tokens.now)) }
{
    match joined(alloc, bytes, tokens)? {
        Ok(text) => Ok(text),
        Err(place) => Err(ValueFault::Unsupported(place)),
    }
}

/// The byte at which tokens start.
fn start_of(tokens: &[Token]) -> u64
    ensures { result ≡ first_start tokens.now }
{
    match tokens {
        [] => 0,
        [token, ..] => token.start,
    }
}

fn atom_place(atom: &Atom) -> u64
    ensures { result ≡ atom_place atom.now }
{
    match atom {
        Atom::Plain(token) => token.start,
        Atom::Inner(place, _) => *place,
    }
}

/// The first byte of a segment, or that of what stands behind it where it has nothing.
pub fn place_of(segment: &Segment) -> u64
    ensures { result ≡ place_of segment.now }
{
    match segment.atoms.get(0) {
        Some(atom) => atom_place(atom),
        None => segment.stop,
    }
}

fn is_equals(atom: &Atom) -> bool
    ensures { result ≡ is_equals atom.now }
{
    match atom {
        Atom::Plain(token) => matches!(token.kind, TokenKind::Op(b'=')),
        Atom::Inner(_, _) => false,
    }
}

fn is_equals_at(atoms: &Pile<Atom>, index: usize) -> bool
    ensures { result ≡ is_equals_at index atoms.now }
{
    match atoms.get(index) {
        Some(atom) => is_equals(atom),
        None => false,
    }
}

/// The word at the front.
fn first_word(atoms: &Pile<Atom>) -> Option<Token>
    ensures { result ≡ word_token_by (slice_get atoms.now 0) }
{
    match atoms.get(0) {
        Some(Atom::Plain(token)) if matches!(token.kind, TokenKind::Word) => Some(*token),
        _ => None,
    }
}

/// The name of the keyword that an argument has: a word with `=` behind it, and not `==`.
pub fn keyword_of(segment: &Segment) -> Option<Token>
    ensures { result ≡ keyword_of segment.now }
{
    if is_equals_at(&segment.atoms, 1) && !is_equals_at(&segment.atoms, 2) {
        return first_word(&segment.atoms);
    }
    None
}

/// What stands behind a keyword and its `=`.
pub fn without_keyword(segment: Segment) -> Segment
    ensures { result ≡ without_keyword segment }
{
    let Segment { atoms, stop } = segment;
    let mut rest = atoms;
    rest.skip();
    rest.skip();
    Segment { atoms: rest, stop }
}
