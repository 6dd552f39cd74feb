//! Why settings are not read.

ghost use Rattle.std.specs.Prelude.{◌≡◌};
ghost use Rattle.settings_reader.specs.Files.{fault_of, with_pointer};
ghost use Rattle.settings_reader.specs.declared.fault.SettingsFault.TheVariants.{OutOfMemory};

use crate::stop::{Misread, Stop, What};
use plain_data::Word;
use spec_grammar::SpecFault;
use std::alloc::AllocError;
use target_table::TargetFault;

/// Why a file of settings is not read: its first fault. A `Word` is the JSON pointer (RFC 6901) of
/// what has the fault.
#[derive(Debug, Drop)]
pub enum SettingsFault {
    /// The file is no JSON text.
    NotJson,
    /// An object has a key that it may not have.
    UnknownKey(Word),
    /// A value is not of its form, or a key that is needed is missing.
    WrongKind(Word),
    /// A list that needs an entry has none.
    Empty(Word),
    /// An entry of a list is named before.
    TwiceNamed(Word),
    /// The targets are no table.
    Targets(TargetFault),
    /// The spec of an external, or a condition, has a fault.
    Spec(Word, SpecFault),
    /// The spec of an external is not one of one node of its package.
    BadExternal(Word),
    /// There was no memory.
    OutOfMemory,
}

impl From<AllocError> for SettingsFault {
    ghost from_gives = { λ _ fault. fault ≡ OutOfMemory };

    fn from(_: AllocError) -> SettingsFault {
        SettingsFault::OutOfMemory
    }
}

impl From<Stop> for SettingsFault {
    ghost from_gives = { λ stop fault. fault ≡ fault_of stop };

    fn from(stop: Stop) -> SettingsFault {
        match stop {
            Stop::Misread(Misread { what, at }) => with_pointer(what, at),
            Stop::OutOfMemory => SettingsFault::OutOfMemory,
        }
    }
}

/// The fault of what is wrong at a pointer.
fn with_pointer(what: What, at: Word) -> SettingsFault
    ensures { result ≡ with_pointer what at }
{
    match what {
        What::UnknownKey => SettingsFault::UnknownKey(at),
        What::WrongKind => SettingsFault::WrongKind(at),
        What::Empty => SettingsFault::Empty(at),
        What::TwiceNamed => SettingsFault::TwiceNamed(at),
        What::Spec(fault) => SettingsFault::Spec(at, fault),
        What::BadExternal => SettingsFault::BadExternal(at),
        What::Targets(fault) => SettingsFault::Targets(fault),
    }
}
