//! Why a value of the settings is not read.

ghost use Rattle.std.specs.Prelude.{◌≡◌, [], decimal, Err};
ghost use Rattle.settings_reader.specs.Told.{Raises, Tells, misread, halt, stop_of, what_of};
ghost use Rattle.settings_reader.specs.declared.stop.Stop.TheVariants.{OutOfMemory};

use json_readers::{JsonFault, Misfit, Wrong, pointer};
use plain_data::Word;
use spec_grammar::SpecFault;
use std::alloc::{AllocError, Global};
use target_table::TargetFault;

/// What is wrong with a value.
#[derive(Debug, Clone, Copy)]
pub(crate) enum What {
    UnknownKey,
    WrongKind,
    Empty,
    TwiceNamed,
    Spec(SpecFault),
    BadExternal,
    /// The targets are no table; its pointer says nothing.
    Targets(TargetFault),
}

/// The first thing that is wrong with a value, and its pointer from the value that was read.
#[derive(Debug, Drop)]
pub(crate) struct Misread {
    pub what: What,
    pub at: Word,
}

/// Why reading stopped.
#[derive(Debug, Drop)]
pub(crate) enum Stop {
    Misread(Misread),
    OutOfMemory,
}

impl From<AllocError> for Stop {
    ghost from_gives = { λ _ stop. stop ≡ OutOfMemory };

    fn from(_: AllocError) -> Stop {
        Stop::OutOfMemory
    }
}

impl From<JsonFault> for Stop {
    ghost from_gives = { λ json stop. stop ≡ stop_of json };

    fn from(json: JsonFault) -> Stop {
        match json {
            JsonFault::Misfit(Misfit { wrong, at }) => Stop::Misread(Misread {
                what: what_of(wrong),
                at,
            }),
            JsonFault::OutOfMemory => Stop::OutOfMemory,
        }
    }
}

/// What a reader of JSON found wrong, among what may be wrong with settings.
fn what_of(wrong: Wrong) -> What
    ensures { result ≡ what_of wrong }
{
    match wrong {
        Wrong::UnknownKey => What::UnknownKey,
        Wrong::WrongKind => What::WrongKind,
        Wrong::Empty => What::Empty,
        Wrong::TwiceNamed => What::TwiceNamed,
    }
}

/// A fault of the value itself.
pub(crate) fn at_root<T>(alloc: Global, what: What) -> Result<T, Stop>
    ensures { Tells result (halt (misread what [])) }
{
    let at = Word::new(alloc, "")?;
    Err(Stop::Misread(Misread { what, at }))
}

/// What was read of the value at a key.
pub(crate) fn below<T: Drop>(alloc: Global, key: &str, read: Result<T, Stop>) -> Result<T, Stop>
    ensures { Raises key.now read result }
{
    match read {
        Err(Stop::Misread(Misread { what, at })) => {
            let at = pointer(alloc, key, at.as_str())?;
            Err(Stop::Misread(Misread { what, at }))
        }
        other => other,
    }
}

/// What was read of the value at a place of a list.
pub(crate) fn below_place<T: Drop>(
    alloc: Global,
    place: usize,
    read: Result<T, Stop>,
) -> Result<T, Stop>
    ensures { Raises (decimal place) read result }
{
    match read {
        Err(Stop::Misread(misread)) => {
            let key = format!(in alloc; "{place}")?;
            below(alloc, key.as_str(), Err(Stop::Misread(misread)))
        }
        other => other,
    }
}
