//! Why a text is no scenario.

ghost use Rattle.std.specs.Prelude.{◌≡◌};
ghost use Rattle.scenario_reader.specs.declared.fault.ScenarioError.TheVariants as errors;

use std::alloc::AllocError;
use std::fmt;

/// What is wrong at a line.
#[derive(Clone, Copy, Debug, PartialEq, Eq)]
pub enum FaultKind {
    /// A line begins with `-- `, and is no `-- NAME --` with a right name.
    Marker,
    /// A line of a quoted section is no quoted line.
    Quoted,
    /// A path, a word or a status is no UTF-8.
    NotText,
    /// A section stands a second time.
    Twice,
    /// A name below `want/` is none of `status`, `out`, `err` and `files/PATH`.
    UnknownWant,
    /// There is no section `words`.
    NoWords,
    /// There is no section `want/status`.
    NoStatus,
    /// A blank line among the words, or among the devices.
    Blank,
    /// `want/status` has not exactly one line.
    Status,
    /// A line of `devices` is none of its forms.
    Device,
    /// `every call` stands beside calls that fail.
    EveryCall,
}

/// What is wrong, and at which line of the text, from 1. What is missing is told at line 0.
#[derive(Clone, Copy, Debug, PartialEq, Eq)]
pub struct Fault {
    pub line: u64,
    pub kind: FaultKind,
}

/// Why no scenario was read.
#[derive(Clone, Copy, Debug, PartialEq, Eq)]
pub enum ScenarioError {
    /// The text is no scenario.
    Fault(Fault),
    /// There was no memory to keep what was read.
    OutOfMemory,
}

/// A fault at a line.
pub(crate) fn fault_at(line: u64, kind: FaultKind) -> ScenarioError
    ensures { result ≡ errors.Fault (record { line = line; kind = kind }) }
{
    ScenarioError::Fault(Fault { line, kind })
}

/// What is said of a kind of fault.
fn text_of(kind: FaultKind) -> &'static str {
    match kind {
        FaultKind::Marker => "a line that begins with `-- ` is no `-- NAME --`",
        FaultKind::Quoted => "no quoted line",
        FaultKind::NotText => "no UTF-8",
        FaultKind::Twice => "a section stands twice",
        FaultKind::UnknownWant => "no name below `want/`",
        FaultKind::NoWords => "no section `words`",
        FaultKind::NoStatus => "no section `want/status`",
        FaultKind::Blank => "a blank line",
        FaultKind::Status => "`want/status` has not one line",
        FaultKind::Device => "no device",
        FaultKind::EveryCall => "`every call` beside calls that fail",
    }
}

impl fmt::Display for FaultKind {
    fn fmt<W: fmt::Write>(&self, f: &mut fmt::Formatter<W>) -> fmt::Result {
        f.write_str(text_of(*self))
    }
}

impl From<AllocError> for ScenarioError {
    ghost from_gives = { λ _ error. error ≡ errors.OutOfMemory };

    fn from(_: AllocError) -> ScenarioError {
        ScenarioError::OutOfMemory
    }
}
