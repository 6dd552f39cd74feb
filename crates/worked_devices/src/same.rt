// The comparison that tests make: of values that name their row, so that a failure shows it.
use std::fmt::Debug;
use std::process::Abort;

/// Wants two values to be equal, and shows both where they are not. A text of its own in each
/// comparison would cost the proof much more.
pub fn check_same<T: PartialEq + Debug>(rt: &impl Abort, got: &T, wanted: &T) {
    assert_eq!(rt; *got, *wanted);
}
