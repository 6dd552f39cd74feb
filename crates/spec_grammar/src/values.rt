//! The values behind `NAME=`.

ghost use Rattle.std.specs.Prelude.{◌≡◌, ◌∷◌, List, Some, IfOk, IfErr, ℕ};
ghost use Rattle.std.specs.List.{AllByRecursion};
ghost use Rattle.spec_grammar.specs.Signs.{IsValue};
ghost use Rattle.spec_grammar.specs.Items.{spell_values};
ghost use Rattle.spec_grammar.specs.Values.{start_run, after, is_whole, Stops};
ghost use Rattle.spec_grammar.specs.Locals.{goes_on, AreValuesAt, IsValuesFault};

use crate::SpecFault;
use crate::key::KeyKind;
use crate::signs::{is_value_byte, value_bytes, word};
use plain_data::{List, Word};
use std::alloc::{AllocError, Global};

/// What stands before a place of values. The first field of each says whether the VALUE or the part
/// of it at hand has a byte, and the second whether it has a `:`.
#[derive(Clone, Copy)]
pub enum Run {
    /// In the one VALUE of a key.
    One(bool),
    /// In a VALUE of a variant.
    Many(bool),
    /// In an item of `target=`.
    Target(bool, bool),
    /// In P of `arch=P-O-T`.
    First(bool),
    /// In O.
    Second(bool),
    /// In T.
    Third(bool, bool),
}

/// Where the values of a key begin. Flags are not read.
pub(crate) fn start_run(key: KeyKind) -> Option<Run>
    ensures { result ≡ start_run key }
{
    match key {
        KeyKind::Platform | KeyKind::Os => Some(Run::One(false)),
        KeyKind::Arch => Some(Run::First(false)),
        KeyKind::Target => Some(Run::Target(false, false)),
        KeyKind::Flags => None,
        KeyKind::Variant => Some(Run::Many(false)),
    }
}

/// Where a byte leads, and `None` where no values have it here.
fn after(run: Run, b: u8) -> Option<Run>
    ensures { result ≡ after run b }
{
    let value = is_value_byte(b);
    match run {
        Run::One(_) if value => Some(Run::One(true)),
        Run::Many(_) if value => Some(Run::Many(true)),
        Run::Many(true) if b == b',' => Some(Run::Many(false)),
        Run::Target(_, false) if b == b':' => Some(Run::Target(true, true)),
        Run::Target(_, colon) if value && b != b':' => Some(Run::Target(true, colon)),
        Run::Target(true, _) if b == b',' => Some(Run::Target(false, false)),
        Run::First(true) if b == b'-' => Some(Run::Second(false)),
        Run::First(_) if value && b != b'-' => Some(Run::First(true)),
        Run::Second(true) if b == b'-' => Some(Run::Third(false, false)),
        Run::Second(_) if value && b != b'-' => Some(Run::Second(true)),
        Run::Third(_, false) if b == b':' => Some(Run::Third(true, true)),
        Run::Third(_, colon) if value && b != b'-' && b != b':' => Some(Run::Third(true, colon)),
        _ => None,
    }
}

/// Whether the values may end here.
fn is_whole(run: Run) -> bool
    ensures { result ≡ is_whole run }
{
    match run {
        Run::One(some) | Run::Many(some) => some,
        Run::Target(some, _) | Run::Third(some, _) => some,
        Run::First(_) | Run::Second(_) => false,
    }
}

/// Where the machine stops, and after how many bytes.
fn scan(start: Run, text: &[u8]) -> (Run, usize)
    ensures { Stops after start text.now result.0 result.1 }
{
    let mut run = start;
    for (index, b) in text.iter().enumerate() {
        match after(run, *b) {
            Some(next) => run = next,
            None => return (run, index),
        }
    }
    (run, text.len())
}

/// The values that a text is, cut at its commas.
pub(crate) fn cut_values(alloc: Global, text: &[u8]) -> Result<List<Word>, AllocError>
    ensures { IfOk result (λ values. (first : List ℕ) (others : List (List ℕ))
        → AllByRecursion IsValue (first ∷ others) → text.now ≡ spell_values (first ∷ others)
        → values ≡ first ∷ others) }
{
    let mut values = List::new(alloc);
    let mut rest = text;
    loop {
        let (value, behind) = rest.split_at(value_bytes(rest));
        values.push(word(alloc, value)?)?;
        let Some((_, next)) = behind.split_first() else {
            return Ok(values);
        };
        rest = next;
    }
}

/// Whether values go on with the first byte.
fn goes_on(text: &[u8]) -> bool
    ensures { result ≡ goes_on text.now }
{
    match text.first() {
        Some(b) => is_value_byte(*b) || *b == b',',
        None => false,
    }
}

/// The values of a key at the front, and their length.
pub(crate) fn values_from(
    alloc: Global,
    key: KeyKind,
    start: Run,
    text: &[u8],
) -> Result<(List<Word>, usize), SpecFault>
    requires { start_run key ≡ Some start }
    ensures found { IfOk result (λ found. AreValuesAt key text.now found.0 found.1) }
    ensures fault { IfErr result (λ fault. IsValuesFault key text.now fault) }
{
    let (run, len) = scan(start, text);
    let (front, rest) = text.split_at(len);
    if !is_whole(run) {
        return Err(SpecFault::Expected(len as u64));
    }
    if goes_on(rest) {
        return Err(SpecFault::Expected(len as u64));
    }
    Ok((cut_values(alloc, front)?, len))
}
