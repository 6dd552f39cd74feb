//! How far a text is a version.

ghost use Rattle.std.specs.Prelude.{◌≡◌, ◌≢◌, ◌<◌, ◌≤◌, length, MatchOption, if◌then◌else◌};
ghost use Rattle.version_order.specs.Signs.{is_start, is_version_byte, IsVersion};
ghost use Rattle.version_order.specs.Fronts.{IsBadAt};
ghost use Rattle.version_order.specs.Faults.{IsVersionFault};

use crate::VersionFault;

/// Whether a version, or a name, may begin with the byte: a letter, a digit or `_`.
pub fn is_start(b: u8) -> bool
    ensures { result ≡ is_start b }
{
    b.is_ascii_alphabetic() || b.is_ascii_digit() || b == b'_'
}

pub(crate) fn is_version_byte(b: u8) -> bool
    ensures { result ≡ is_version_byte b }
{
    is_start(b) || b == b'.' || b == b'-'
}

/// Whether a version goes on with this byte, where some of it stands before, or begins with it.
fn goes_on(inside: bool, b: u8) -> bool
    ensures { result ≡ (if inside then is_version_byte b else is_start b) }
{
    if inside {
        is_version_byte(b)
    } else {
        is_start(b)
    }
}

/// The length of the longest front of a text that a version begins with.
fn version_front(text: &[u8]) -> usize
    ensures bad { result < length text.now → IsBadAt IsVersion text.now result }
    ensures good { length text.now ≤ result → 0 < length text.now → IsVersion text.now }
{
    let mut inside = false;
    for (index, b) in text.iter().enumerate() {
        if !goes_on(inside, *b) {
            return index;
        }
        inside = true;
    }
    text.len()
}

/// Why a text is no version, and `None` where it is one.
pub(crate) fn fault_of(text: &[u8]) -> Option<VersionFault>
    ensures told { MatchOption result (IsVersion text.now)
        (λ fault. IsVersionFault text.now fault) }
    // It takes no memory.
    ensures memory { result ≢ Some VersionFault.OutOfMemory }
{
    if text.is_empty() {
        return Some(VersionFault::Empty);
    }
    let front = version_front(text);
    if front < text.len() {
        return Some(VersionFault::BadByte(front as u64));
    }
    None
}

/// The text that the bytes of a version are.
pub(crate) fn text_of(bytes: &[u8]) -> &str
    requires { IsVersion bytes.now }
    ensures { result.now ≡ bytes.now }
{
    match str::from_utf8(bytes) {
        Ok(text) => text,
        Err(_) => unreachable!(),
    }
}
