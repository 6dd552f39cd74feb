//! The fields of a row.
ghost use Rattle.std.specs.Prelude.{IfOk, ◌<◌};

use crate::stop::Stop;
use std::alloc::Global;
use std::str;

/// A field: the bytes up to a blank, or between quotation marks, where `\n`, `\t`, `\r`, `\"`, `\\`
/// and `\xHH` stand for one byte.
pub(crate) type Field = Vec<u8>;

fn digit(b: u8) -> Result<u8, Stop>
    ensures { IfOk result (λ value. value < 16) }
{
    match b {
        b'0'..=b'9' => Ok(b - b'0'),
        b'a'..=b'f' => Ok(b - b'a' + 10),
        _ => Err(Stop::NoRow),
    }
}

/// The byte that `\` and this one stand for.
fn escaped(b: u8) -> Result<u8, Stop> {
    match b {
        b'n' => Ok(b'\n'),
        b't' => Ok(b'\t'),
        b'r' => Ok(b'\r'),
        b'"' | b'\\' => Ok(b),
        _ => Err(Stop::NoRow),
    }
}

/// The field up to a quotation mark, and the rest behind that.
fn quoted(alloc: Global, text: &[u8]) -> Result<(Field, &[u8]), Stop> {
    let mut field = Vec::new(alloc);
    let mut rest = text;
    for _ in 0..text.len() {
        match rest {
            [] => break,
            [b'"', more @ ..] => return Ok((field, more)),
            [b'\\', b'x', high, low, more @ ..] => {
                field.push(digit(*high)? * 16 + digit(*low)?)?;
                rest = more;
            }
            [b'\\', b, more @ ..] => {
                field.push(escaped(*b)?)?;
                rest = more;
            }
            [b, more @ ..] => {
                field.push(*b)?;
                rest = more;
            }
        }
    }
    Err(Stop::NoRow)
}

/// The field up to a blank, and the rest from there.
fn bare(alloc: Global, text: &[u8]) -> Result<(Field, &[u8]), Stop> {
    let len = text.iter().take_while(|b| **b != b' ').count();
    let (front, rest) = text.split_at(len);
    Ok((Vec::from_slice(alloc, front)?, rest))
}

/// The fields of a text, between blanks.
pub(crate) fn fields_of(alloc: Global, text: &[u8]) -> Result<Vec<Field>, Stop> {
    let mut fields = Vec::new(alloc);
    let mut rest = text;
    for _ in 0..text.len() {
        let (field, more) = match rest {
            [] => break,
            [b' ', more @ ..] => {
                rest = more;
                continue;
            }
            [b'"', more @ ..] => quoted(alloc, more)?,
            more => bare(alloc, more)?,
        };
        fields.push(field)?;
        rest = more;
    }
    Ok(fields)
}

/// The text of a field.
pub(crate) fn text_of(field: &Field) -> Result<&str, Stop> {
    match str::from_utf8(field.as_slice()) {
        Ok(text) => Ok(text),
        Err(_) => Err(Stop::NoRow),
    }
}

/// `true` or `false`.
pub(crate) fn truth(alloc: Global, value: bool) -> Result<String, Stop> {
    Ok(String::from_str(alloc, if value { "true" } else { "false" })?)
}
