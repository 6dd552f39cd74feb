//! The files that a run reads as a whole.

ghost use Rattle.std.specs.Prelude.{◌≡◌, Err};
ghost use Rattle.run_answers.specs.Stops.{EndsInReadFault};
ghost use Rattle.run_input.specs.Bytes.{limit_of, too_large};

use run_answers::{ReadStop, Refusal};

/// A file that a run reads as a whole.
#[derive(Clone, Copy)]
pub enum WholeFile {
    /// The settings, of 16 MiB at most.
    Settings,
    /// The database, of 64 MiB at most.
    Database,
    /// The lock file, of fewer than 2^63 bytes.
    Lock,
}

impl WholeFile {
    /// The most bytes that it may have.
    pub(crate) fn limit(self) -> u64
        ensures { result ≡ limit_of self }
    {
        match self {
            WholeFile::Settings => 1 << 24,
            WholeFile::Database => 1 << 26,
            WholeFile::Lock => (1 << 63) - 1,
        }
    }

    /// What is answered where it has more.
    pub(crate) fn refused(self) -> Result<Vec<u8>, ReadStop>
        ensures refusal { result ≡ Err (ReadStop.Refused (too_large self)) }
        ensures no_fault { EndsInReadFault result → ⊥ }
    {
        match self {
            WholeFile::Settings => Err(ReadStop::Refused(Refusal::SettingsTooLarge)),
            WholeFile::Database => Err(ReadStop::Refused(Refusal::DatabaseTooLarge)),
            WholeFile::Lock => Err(ReadStop::Refused(Refusal::LockTooLarge)),
        }
    }
}
