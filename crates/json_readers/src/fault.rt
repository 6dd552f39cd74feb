//! What is wrong with a value, and where.

ghost use Rattle.std.specs.Prelude.{◌≡◌, ◌∷◌, ◌++◌, [], decimal, Err, IfOk, OnOk, flat_map};
ghost use Rattle.std.specs.Prelude.{string_bytes};
ghost use Rattle.std.specs.Str.{chars, encode_utf8_all};
ghost use Rattle.json_readers.specs.Faults.{Gives, escaped, misfit, pointed, Raises};
ghost use Rattle.json_readers.specs.declared.fault.JsonFault.TheVariants.{OutOfMemory};

use plain_data::Word;
use std::alloc::{AllocError, Global};

/// What is wrong with a value.
#[derive(Debug, Clone, Copy, PartialEq, Eq)]
pub enum Wrong {
    /// An object has a key that its form does not know.
    UnknownKey,
    /// The value is not of its form, or is missing.
    WrongKind,
    /// A list that needs an entry has none.
    Empty,
    /// An entry is equal to one before it.
    TwiceNamed,
}

/// The first thing that is wrong with a value.
#[derive(Debug, Drop)]
pub struct Misfit {
    pub wrong: Wrong,
    /// The JSON pointer (RFC 6901) from the value that was read; empty for that value itself.
    pub at: Word,
}

/// Why a value was not read.
#[derive(Debug, Drop)]
pub enum JsonFault {
    Misfit(Misfit),
    OutOfMemory,
}

impl From<AllocError> for JsonFault {
    ghost from_gives = { λ _ fault. fault ≡ OutOfMemory };

    fn from(_: AllocError) -> JsonFault {
        JsonFault::OutOfMemory
    }
}

/// A fault of the value itself.
pub fn at_root<T>(alloc: Global, wrong: Wrong) -> Result<T, JsonFault>
    ensures { Gives result (Err (misfit wrong [])) }
{
    let at = Word::new(alloc, "")?;
    Err(JsonFault::Misfit(Misfit { wrong, at }))
}

/// A fault at a key of the value.
pub fn at_key<T>(alloc: Global, wrong: Wrong, key: &str) -> Result<T, JsonFault>
    ensures { Gives result (Err (misfit wrong (pointed key.now []))) }
{
    let at = pointer(alloc, key, "")?;
    Err(JsonFault::Misfit(Misfit { wrong, at }))
}

/// What was read of the value at a key. A pointer is made only for a fault.
pub fn below<T: Drop>(alloc: Global, key: &str, read: Result<T, JsonFault>) -> Result<T, JsonFault>
    ensures { Raises key.now read result }
{
    match read {
        Err(JsonFault::Misfit(Misfit { wrong, at })) => {
            let at = pointer(alloc, key, at.as_str())?;
            Err(JsonFault::Misfit(Misfit { wrong, at }))
        }
        other => other,
    }
}

/// What was read of the value at a place of a list.
pub fn below_place<T: Drop>(
    alloc: Global,
    place: usize,
    read: Result<T, JsonFault>,
) -> Result<T, JsonFault>
    ensures { Raises (decimal place) read result }
{
    match read {
        Err(JsonFault::Misfit(misfit)) => {
            let key = format!(in alloc; "{place}")?;
            below(alloc, key.as_str(), Err(JsonFault::Misfit(misfit)))
        }
        other => other,
    }
}

/// The pointer that goes down by a key, and then on.
#[tactic(auto, unfolding(crate::specs::Faults::pointed))]
pub fn pointer(alloc: Global, key: &str, rest: &str) -> Result<Word, AllocError>
    ensures { IfOk result (λ word. word ≡ pointed key.now rest.now) }
{
    let mut text = String::from_str(alloc, "/")?;
    push_escaped(&mut text, key)?;
    text.push_str(rest)?;
    Word::new(alloc, text.as_str())
}

fn push_escaped(text: &mut String, key: &str) -> Result<(), AllocError>
    ensures { OnOk result (string_bytes text.new
        ≡ string_bytes text.old ++ encode_utf8_all (flat_map escaped (chars key.now))) }
{
    for c in key.chars() {
        push_char(text, c)?;
    }
    Ok(())
}

/// Puts a character of a key: `~` and `/` stand as `~0` and `~1` (RFC 6901).
fn push_char(text: &mut String, c: char) -> Result<(), AllocError>
    ensures { OnOk result (string_bytes text.new ≡ string_bytes text.old
        ++ encode_utf8_all (escaped c)) }
{
    if c == '~' {
        text.push_str("~0")
    } else if c == '/' {
        text.push_str("~1")
    } else {
        text.push(c)
    }
}
