//! How far a text is a LIST: one item, then more items each after a comma.

ghost use Rattle.std.specs.Prelude.{◌≡◌, ◌↔◌, IsTrue, take};
ghost use Rattle.version_order.specs.Fronts.{IsLongestFront};
ghost use Rattle.version_order.specs.Machine.{Tells};
ghost use Rattle.version_order.specs.Items.{IsList};
ghost use Rattle.version_order.specs.declared.scan.Place.TheVariants.{Item};
ghost use Rattle.version_order.specs.Scan.{sign_of, after, is_final, step, Stops, IsListFront};

use crate::reading::{is_start, is_version_byte};

/// What a byte may be in a LIST.
#[derive(Clone, Copy, Debug)]
pub enum Sign {
    /// A letter, a digit or `_`, with which a version may begin.
    Start,
    /// `.` or `-`, which may stand within a version.
    Inner,
    /// `=`
    Equals,
    /// `:`
    Colon,
    /// `,`
    Comma,
    /// Any other byte.
    Other,
}

/// What stands before a place of a LIST.
#[derive(Clone, Copy, Debug)]
pub enum Place {
    /// An item begins.
    Item,
    /// After `=`.
    Exact,
    /// In the version after `=`.
    InExact,
    /// In a version that stands alone, or is the low end of a range.
    InLow,
    /// After `:`.
    High,
    /// In the high end of a range.
    InHigh,
}

/// What a byte is to the machine that reads a LIST.
fn sign_of(b: u8) -> Sign
    ensures { result ≡ sign_of b }
{
    match b {
        _ if is_start(b) => Sign::Start,
        _ if is_version_byte(b) => Sign::Inner,
        b'=' => Sign::Equals,
        b':' => Sign::Colon,
        b',' => Sign::Comma,
        _ => Sign::Other,
    }
}

/// Where a byte leads, and `None` where no LIST has it here.
fn after(place: Place, sign: Sign) -> Option<Place>
    ensures { result ≡ after place sign }
{
    match (place, sign) {
        (Place::Item, Sign::Start) => Some(Place::InLow),
        (Place::Item, Sign::Equals) => Some(Place::Exact),
        (Place::Item, Sign::Colon) => Some(Place::High),
        (Place::Exact, Sign::Start) => Some(Place::InExact),
        (Place::InExact, Sign::Start | Sign::Inner) => Some(Place::InExact),
        (Place::InLow, Sign::Start | Sign::Inner) => Some(Place::InLow),
        (Place::InLow, Sign::Colon) => Some(Place::High),
        (Place::High, Sign::Start) => Some(Place::InHigh),
        (Place::InHigh, Sign::Start | Sign::Inner) => Some(Place::InHigh),
        (Place::InExact | Place::InLow | Place::High | Place::InHigh, Sign::Comma) => {
            Some(Place::Item)
        }
        _ => None,
    }
}

/// Whether a LIST may end here.
pub(crate) fn is_final(place: Place) -> bool
    ensures { result ≡ is_final place }
{
    !matches!(place, Place::Item | Place::Exact)
}

/// Where the machine stops, and after how many bytes.
pub(crate) fn scan(text: &[u8]) -> (Place, usize)
    ensures { Stops text.now result.0 result.1 }
{
    let mut place = Place::Item;
    for (index, b) in text.iter().enumerate() {
        match after(place, sign_of(*b)) {
            Some(next) => place = next,
            None => return (place, index),
        }
    }
    (place, text.len())
}

/// How long the longest front of a text is that a LIST begins with, and whether that front is a LIST.
pub fn list_front(text: &[u8]) -> (usize, bool)
    ensures longest { IsLongestFront IsList text.now result.0 }
    ensures whole { IsTrue result.1 ↔ IsList (take result.0 text.now) }
    // The same by the machine.
    ensures stops { IsListFront text.now result.0 result.1 }
{
    let (place, end) = scan(text);
    (end, is_final(place))
}

/// The machine of `step` tells a LIST from all other texts. `list_front` goes by it, and so can the
/// reader of a grammar in which a LIST stands.
pub fn list_machine()
    ensures { Tells step IsList Item is_final }
{}
