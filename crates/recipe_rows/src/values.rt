//! The arguments of a text in brackets, as texts.

use plain_data::Word;
use recipe_lexer::Token;
use recipe_values::{
    Element, Pile, PlacedValue, Scalar, Segment, Value, ValueFault, arguments, keyword_of,
    read_value, without_keyword,
};
use std::alloc::{AllocError, Global};

fn push_char(out: &mut String, c: char) -> Result<(), AllocError> {
    match c {
        '\n' => out.push_str("\\n"),
        '\t' => out.push_str("\\t"),
        ' ' => out.push_str("\\s"),
        '\\' => out.push_str("\\\\"),
        _ => out.push(c),
    }
}

/// A text in quotation marks; `\s` is a space.
fn push_text(out: &mut String, text: &Word) -> Result<(), AllocError> {
    out.push('"')?;
    for c in text.as_str().chars() {
        push_char(out, c)?;
    }
    out.push('"')
}

fn push_scalar(out: &mut String, scalar: &Scalar) -> Result<(), AllocError> {
    match scalar {
        Scalar::Text(text) => push_text(out, text),
        Scalar::Number(digits) => out.push_str(digits.as_str()),
        Scalar::Truth(true) => out.push_str("True"),
        Scalar::Truth(false) => out.push_str("False"),
        Scalar::Nothing => out.push_str("None"),
        Scalar::Nested => out.push_str("Nested"),
    }
}

fn push_element(alloc: Global, out: &mut String, element: &Element) -> Result<(), AllocError> {
    let place = element.place;
    push_scalar(out, &element.scalar)?;
    out.push_str(format!(in alloc; "@{place} ")?.as_str())
}

fn push_elements(alloc: Global, out: &mut String, elements: &[Element]) -> Result<(), AllocError> {
    out.push_str("[ ")?;
    for element in elements {
        push_element(alloc, out, element)?;
    }
    out.push(']')
}

fn push_value(alloc: Global, out: &mut String, value: &Value) -> Result<(), AllocError> {
    match value {
        Value::One(scalar) => push_scalar(out, scalar),
        Value::Many(elements) => push_elements(alloc, out, elements.as_slice()),
    }
}

fn push_places(alloc: Global, out: &mut String, reading: &PlacedValue) -> Result<(), AllocError> {
    let (place, token) = (reading.place, reading.token);
    if place == token {
        return out.push_str(format!(in alloc; "@{place}")?.as_str());
    }
    out.push_str(format!(in alloc; "@{place}/{token}")?.as_str())
}

fn push_fault(alloc: Global, out: &mut String, fault: ValueFault) -> Result<(), AllocError> {
    match fault {
        ValueFault::Unsupported(place) => {
            out.push_str(format!(in alloc; "Unsupported@{place}")?.as_str())
        }
        ValueFault::OutOfMemory => out.push_str("OutOfMemory"),
    }
}

fn push_read(
    alloc: Global,
    out: &mut String,
    bytes: &[u8],
    segment: Segment,
) -> Result<(), AllocError> {
    match read_value(alloc, bytes, segment) {
        Ok(reading) => {
            push_value(alloc, out, &reading.value)?;
            push_places(alloc, out, &reading)
        }
        Err(fault) => push_fault(alloc, out, fault),
    }
}

fn push_argument(
    alloc: Global,
    out: &mut String,
    bytes: &[u8],
    segment: Segment,
) -> Result<(), AllocError> {
    let Some(name) = keyword_of(&segment) else {
        return push_read(alloc, out, bytes, segment);
    };
    let place = name.start;
    out.push_str(String::from_utf8_lossy(alloc, name.text(bytes))?.as_str())?;
    out.push_str(format!(in alloc; "@{place}=")?.as_str())?;
    push_read(alloc, out, bytes, without_keyword(segment))
}

fn push_arguments(
    alloc: Global,
    out: &mut String,
    bytes: &[u8],
    segments: Pile<Segment>,
) -> Result<(), AllocError> {
    let mut left = segments;
    'segments: while let Some(segment) = left.pop() {
        push_argument(alloc, out, bytes, segment)?;
        out.push(' ')?;
    }
    Ok(())
}

/// The arguments that stand in the brackets that a text is, as
/// `"a"@1 when@6= [ True@12 ]@11 Unsupported@20`. Of a value in brackets it shows the first byte
/// and that of its first token that is no bracket around it.
pub(crate) fn values_text(
    alloc: Global,
    bytes: &[u8],
    tokens: &[Token],
) -> Result<String, AllocError> {
    let mut out = String::new(alloc);
    match tokens {
        [_, inside @ .., end, _, _] => {
            let segments = arguments(alloc, bytes, inside, end.start)?;
            push_arguments(alloc, &mut out, bytes, segments)?;
        }
        _ => {}
    }
    if out.is_empty() {
        out.push_str("none")?;
    }
    Ok(out)
}
