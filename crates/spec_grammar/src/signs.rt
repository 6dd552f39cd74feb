//! Bytes of names, values and white space.

ghost use Rattle.std.specs.Prelude.{◌≡◌, ◌≤◌, length, IfOk};
ghost use Rattle.std.specs.List.{list_all, prefix_len};
ghost use Rattle.std.specs.Str.{IsUtf8};
ghost use Rattle.spec_grammar.specs.Signs.{is_white, is_name, is_name_byte, is_value_byte, name_length};

use plain_data::Word;
use std::alloc::{AllocError, Global};
use version_order::is_start;

/// Whether the byte is white space: space, tab, line feed or carriage return.
pub fn is_white(b: u8) -> bool
    ensures { result ≡ is_white b }
{
    b == b' ' || b == b'\t' || b == b'\n' || b == b'\r'
}

/// Whether the byte may stand in a NAME: a letter, a digit, `_` or `-`.
pub fn is_name_byte(b: u8) -> bool
    ensures { result ≡ is_name_byte b }
{
    is_start(b) || b == b'-'
}

pub(crate) fn is_value_byte(b: u8) -> bool
    ensures { result ≡ is_value_byte b }
{
    is_name_byte(b) || b == b'+' || b == b'.' || b == b':' || b == b'/'
}

fn are_name_bytes(text: &[u8]) -> bool
    ensures { result ≡ list_all is_name_byte text.now }
{
    text.iter().all(|b| is_name_byte(*b))
}

/// Whether a text is a NAME: a letter, a digit or `_`, and then letters, digits, `_` and `-`.
pub fn is_name(text: &[u8]) -> bool
    ensures { result ≡ is_name text.now }
{
    match text.split_first() {
        Some((first, rest)) => is_start(*first) && are_name_bytes(rest),
        None => false,
    }
}

/// How many bytes of white space stand at the front.
pub(crate) fn white_length(text: &[u8]) -> usize
    ensures bound { result ≤ length text.now }
    ensures value { result ≡ prefix_len is_white text.now }
{
    text.iter().take_while(|b| is_white(**b)).count()
}

/// How many bytes of a NAME stand at the front.
fn name_bytes(text: &[u8]) -> usize
    ensures bound { result ≤ length text.now }
    ensures value { result ≡ prefix_len is_name_byte text.now }
{
    text.iter().take_while(|b| is_name_byte(**b)).count()
}

/// How many bytes of a VALUE stand at the front.
pub(crate) fn value_bytes(text: &[u8]) -> usize
    ensures bound { result ≤ length text.now }
    ensures value { result ≡ prefix_len is_value_byte text.now }
{
    text.iter().take_while(|b| is_value_byte(**b)).count()
}

/// The length of the NAME at the front, and 0 where there is none.
pub(crate) fn name_length(text: &[u8]) -> usize
    ensures bound { result ≤ length text.now }
    ensures value { result ≡ name_length text.now }
{
    match text.split_first() {
        Some((b, rest)) if is_start(*b) => 1 + name_bytes(rest),
        _ => 0,
    }
}

/// The word with these bytes.
pub(crate) fn word(alloc: Global, bytes: &[u8]) -> Result<Word, AllocError>
    requires { IsUtf8 bytes.now }
    ensures { IfOk result (λ word. word ≡ bytes.now) }
{
    match str::from_utf8(bytes) {
        Ok(text) => Word::new(alloc, text),
        Err(_) => unreachable!(),
    }
}
