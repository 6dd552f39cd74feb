//! What a section is by its name.

ghost use Rattle.std.specs.Prelude.{◌≡◌};
ghost use Rattle.scenario_reader.specs.Kinds.{is_kind, kind_of, path_of};

use crate::mark::has_front;

/// What a section is.
#[derive(Clone, Copy, Debug)]
pub(crate) enum Kind {
    /// `words`
    Words,
    /// `devices`
    Devices,
    /// `want/status`
    Status,
    /// `want/out`
    Out,
    /// `want/err`
    Err,
    /// `want/files/PATH`
    Changed,
    /// Any other name below `want/`.
    Unknown,
    /// A path.
    File,
}

const WANT: &[u8] = b"want/";

const FILES: &[u8] = b"want/files/";

impl Kind {
    /// Whether two kinds are one.
    pub(crate) fn is(self, other: Kind) -> bool
        ensures { result ≡ is_kind self other }
    {
        matches!(
            (self, other),
            (Kind::Words, Kind::Words)
                | (Kind::Devices, Kind::Devices)
                | (Kind::Status, Kind::Status)
                | (Kind::Out, Kind::Out)
                | (Kind::Err, Kind::Err)
                | (Kind::Changed, Kind::Changed)
                | (Kind::Unknown, Kind::Unknown)
                | (Kind::File, Kind::File)
        )
    }
}

/// The kind of section that a name has.
#[tactic(auto, unfolding(crate::specs::Kinds::kind_of))]
pub(crate) fn kind_of(name: &[u8]) -> Kind
    ensures { result ≡ kind_of name.now }
{
    if name == b"words".as_slice() {
        Kind::Words
    } else if name == b"devices".as_slice() {
        Kind::Devices
    } else if name == b"want/status".as_slice() {
        Kind::Status
    } else if name == b"want/out".as_slice() {
        Kind::Out
    } else if name == b"want/err".as_slice() {
        Kind::Err
    } else if has_front(FILES, name) && name.len() > FILES.len() {
        Kind::Changed
    } else if has_front(WANT, name) {
        Kind::Unknown
    } else {
        Kind::File
    }
}

/// The path of a section's file, and its name where it has none.
pub(crate) fn path_of(kind: Kind, name: &[u8]) -> &[u8]
    ensures { result.now ≡ path_of kind name.now }
{
    if !kind.is(Kind::Changed) {
        return name;
    }
    if name.len() < FILES.len() {
        return &[];
    }
    &name[FILES.len()..]
}
