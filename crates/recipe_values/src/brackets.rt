//! What brackets stand for.

ghost use Rattle.std.specs.Prelude.{◌≡◌, ◌==◌, ◌||◌, Ok, IfOk};
ghost use Rattle.recipe_values.specs.Reads.{join};
ghost use Rattle.recipe_values.specs.Values.{is_empty, segment_value};
ghost use Rattle.recipe_values.specs.Brackets.{segments_of, scalar_of, element, elements, collection, many, bracketed, is_around, group};

use crate::text::Read;
use crate::values::value_of;
use crate::{Element, Level, Pile, PlacedValue, Scalar, Segment, Value};
use plain_data::List;
use std::alloc::{AllocError, Global};

/// What stands between the commas of a bracket, the last of which may have nothing behind it.
pub(crate) fn segments(level: Level) -> Result<Pile<Segment>, AllocError>
    ensures { IfOk result (λ found. found ≡ segments_of level) }
{
    let Level { here, behind } = level;
    let mut found = behind;
    found.push(here)?;
    match found.pop_last() {
        Some(last) => {
            if last.atoms.is_empty() {
                return Ok(found);
            }
            found.push_last(last)?;
            Ok(found)
        }
        None => Ok(found),
    }
}

/// A value that stands in another one.
fn scalar_of(value: Value) -> Scalar
    ensures { result ≡ scalar_of value }
{
    match value {
        Value::One(scalar) => scalar,
        Value::Many(_) => Scalar::Nested,
    }
}

/// A member of a tuple or a list.
fn element(reading: PlacedValue) -> Element
    ensures { result ≡ element reading }
{
    let PlacedValue { value, place, .. } = reading;
    Element {
        scalar: scalar_of(value),
        place,
    }
}

/// The members of a tuple or a list.
fn elements(
    alloc: Global,
    bytes: &[u8],
    segments: Pile<Segment>,
) -> Result<Read<List<Element>>, AllocError>
    ensures { IfOk result (λ read. read ≡ elements bytes.now segments) }
{
    let mut found = List::new(alloc);
    let mut left = segments;
    'segments: while let Some(segment) = left.pop() {
        match value_of(alloc, bytes, segment)? {
            Ok(reading) => found.push(element(reading))?,
            Err(fault) => return Ok(Err(fault)),
        }
    }
    Ok(Ok(found))
}

/// A tuple or a list.
fn many(
    alloc: Global,
    bytes: &[u8],
    place: u64,
    segments: Pile<Segment>,
) -> Result<Read<PlacedValue>, AllocError>
    ensures { IfOk result (λ read. read ≡ many bytes.now place segments) }
{
    match elements(alloc, bytes, segments)? {
        Ok(found) => Ok(Ok(PlacedValue {
            value: Value::Many(found),
            place,
            token: place,
        })),
        Err(fault) => Ok(Err(fault)),
    }
}

/// A value in brackets, the first of which is at `place`.
fn bracketed(place: u64, read: Read<PlacedValue>) -> Read<PlacedValue>
    ensures { result ≡ bracketed place read }
{
    match read {
        Ok(reading) => {
            let PlacedValue { value, token, .. } = reading;
            Ok(PlacedValue {
                value,
                place,
                token,
            })
        }
        Err(fault) => Err(fault),
    }
}

/// Whether brackets that begin with this sign stand around a value.
fn is_around(sign: u8, level: &Level) -> bool
    ensures { result ≡ is_around sign level.now }
{
    sign == b'(' && !level.here.atoms.is_empty() && level.behind.is_empty()
}

/// What brackets stand for that begin with this sign at `place`.
#[tactic(auto, unfolding(crate::specs::Brackets::group))]
pub(crate) fn group(
    alloc: Global,
    bytes: &[u8],
    sign: u8,
    place: u64,
    level: Level,
) -> Result<Read<PlacedValue>, AllocError>
    ensures { IfOk result (λ read. read ≡ group bytes.now sign place level) }
{
    if is_around(sign, &level) {
        let read = value_of(alloc, bytes, level.here)?;
        return Ok(bracketed(place, read));
    }
    if sign == b'(' || sign == b'[' {
        return many(alloc, bytes, place, segments(level)?);
    }
    Ok(Err(place))
}
