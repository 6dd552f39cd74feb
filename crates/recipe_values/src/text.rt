//! The texts that strings stand for.

ghost use Rattle.std.specs.Prelude.{◌≡◌, ◌==◌, ◌&&◌, not, ◌<◌, ◌≤◌, ◌+◌, ◌^◌, length, false, Ok, IfOk, IfSome};
ghost use Rattle.std.specs.List.{list_all, prefix_len};
ghost use Rattle.recipe_lexer.specs.Pieces.{is_mark, marks, opening};
ghost use Rattle.recipe_values.specs.Reads.{Adds};
ghost use Rattle.recipe_values.specs.Strings.{text_of_escape, escape, byte_text, decoded, prefix, marks_of, inside, is_no_escape, string_by, string_in, string, strings, as_text};

use plain_data::Word;
use recipe_lexer::Token;
use std::alloc::{AllocError, Global};

/// What is read, or the place at which something starts that is not read.
pub(crate) type Read<T> = Result<T, u64>;

/// Adds what a backslash at `place` and this byte stand for.
fn add_escape(text: &mut Vec<u8>, place: u64, b: u8) -> Result<Read<()>, AllocError>
    ensures { IfOk result (λ read.
        Adds read text.old.items text.new.items (escape place (text_of_escape b))) }
{
    match b {
        b'\\' | b'"' | b'\'' => text.push(b)?,
        b'n' => text.push(b'\n')?,
        b't' => text.push(b'\t')?,
        b'\n' => {}
        _ => return Ok(Err(place)),
    }
    Ok(Ok(()))
}

/// Adds what a byte at `place` stands for, which a backslash before it may take.
fn add_byte(text: &mut Vec<u8>, place: u64, taken: bool, b: u8) -> Result<Read<()>, AllocError>
    ensures { IfOk result (λ read.
        Adds read text.old.items text.new.items (byte_text place taken b)) }
{
    if taken {
        return add_escape(text, place.saturating_sub(1), b);
    }
    if b != b'\\' {
        text.push(b)?;
    }
    Ok(Ok(()))
}

/// Whether a byte is a backslash that takes the next one.
fn takes(taken: bool, b: u8) -> bool
    ensures { result ≡ (not taken && b == 92) }
{
    !taken && b == b'\\'
}

/// Adds the text of bytes with escapes, which stand at `place`.
fn add_decoded(text: &mut Vec<u8>, place: u64, bytes: &[u8]) -> Result<Read<()>, AllocError>
    requires { place + length bytes.now < 2 ^ 64 }
    ensures { IfOk result (λ read.
        Adds read text.old.items text.new.items (decoded place false bytes.now)) }
{
    let mut taken = false;
    for (i, b) in bytes.iter().enumerate() {
        match add_byte(text, place + i as u64, taken, *b)? {
            Ok(()) => taken = takes(taken, *b),
            Err(place) => return Ok(Err(place)),
        }
    }
    Ok(Ok(()))
}

fn is_mark(b: u8) -> bool
    ensures { result ≡ is_mark b }
{
    b == b'"' || b == b'\''
}

/// How many letters stand before the marks.
fn prefix(text: &[u8]) -> usize
    ensures bound { result ≤ length text.now }
    ensures value { result ≡ prefix text.now }
{
    text.iter().take_while(|b| !is_mark(**b)).count()
}

/// How many marks `q` stand at the front, 3 for more.
fn marks(q: u8, text: &[u8]) -> usize
    ensures bound { result ≤ length text.now }
    ensures value { result ≡ marks q text.now }
{
    text.iter().take(3).take_while(|b| **b == q).count()
}

/// How many marks open a string.
fn marks_of(text: &[u8]) -> usize
    ensures bound { result ≤ length text.now }
    ensures three { result ≤ 3 }
    ensures value { result ≡ marks_of text.now }
{
    match text {
        [] => 0,
        [q, ..] => {
            if marks(*q, text) == 3 {
                return 3;
            }
            1
        }
    }
}

/// What stands between the marks.
fn inside(text: &[u8]) -> &[u8]
    ensures bound { length result.now ≤ length text.now }
    ensures value { result.now ≡ inside text.now }
{
    let marks = marks_of(text);
    let count = text.len().saturating_sub(marks + marks);
    &text[marks..marks + count]
}

/// Whether no byte is a backslash.
fn has_no_escape(text: &[u8]) -> bool
    ensures { result ≡ list_all is_no_escape text.now }
{
    text.iter().all(|b| *b != b'\\')
}

/// What stands between the marks of a string that stands for just that, as nearly all strings do: it has no prefix
/// and no backslash. None for another one.
pub(crate) fn plain_inside(bytes: &[u8], token: Token) -> Option<&[u8]>
    ensures { IfSome result (λ text. string bytes.now token ≡ Ok text.now) }
{
    let slice = token.text(bytes);
    let text = inside(slice);
    if prefix(slice) == 0 && has_no_escape(text) {
        Some(text)
    } else {
        None
    }
}

/// Adds the text of a string at `place` with this prefix, without which it is `marked`.
fn add_marked(
    text: &mut Vec<u8>,
    place: u64,
    letters: &[u8],
    marked: &[u8],
) -> Result<Read<()>, AllocError>
    requires { place + length marked.now < 2 ^ 64 }
    ensures { IfOk result (λ read.
        Adds read text.old.items text.new.items (string_by place letters.now marked.now)) }
{
    match letters {
        [] => add_decoded(text, place + marks_of(marked) as u64, inside(marked)),
        [b'r'] => {
            text.extend_from_slice(inside(marked))?;
            Ok(Ok(()))
        }
        _ => Ok(Err(place)),
    }
}

/// Adds the text of a string, which stands at `place`.
fn add_slice(text: &mut Vec<u8>, place: u64, slice: &[u8]) -> Result<Read<()>, AllocError>
    requires { place + length slice.now < 2 ^ 64 }
    ensures { IfOk result (λ read.
        Adds read text.old.items text.new.items (string_in place slice.now)) }
{
    let letters = prefix(slice);
    add_marked(text, place, &slice[..letters], &slice[letters..])
}

/// Adds the text of a string.
#[tactic(auto, unfolding(crate::specs::Strings::string))]
pub(crate) fn add_string(
    text: &mut Vec<u8>,
    bytes: &[u8],
    token: Token,
) -> Result<Read<()>, AllocError>
    ensures { IfOk result (λ read.
        Adds read text.old.items text.new.items (string bytes.now token)) }
{
    add_slice(text, token.start, token.text(bytes))
}

/// Adds the texts of strings.
pub(crate) fn add_strings(
    text: &mut Vec<u8>,
    bytes: &[u8],
    tokens: &[Token],
) -> Result<Read<()>, AllocError>
    ensures { IfOk result (λ read.
        Adds read text.old.items text.new.items (strings bytes.now tokens.now)) }
{
    for token in tokens {
        match add_string(text, bytes, *token)? {
            Ok(()) => {}
            Err(place) => return Ok(Err(place)),
        }
    }
    Ok(Ok(()))
}

/// Keeps a text that starts at `place`.
pub(crate) fn kept(alloc: Global, place: u64, text: &[u8]) -> Result<Read<Word>, AllocError>
    ensures { IfOk result (λ read. read ≡ as_text place (Ok text.now)) }
{
    match str::from_utf8(text) {
        Ok(text) => Ok(Ok(Word::new(alloc, text)?)),
        Err(_) => Ok(Err(place)),
    }
}
