//! Texts in tables: one line each, with escapes.

ghost use Rattle.std.specs.Prelude.{◌<◌};

use std::alloc::{AllocError, Global};

/// The value of a hexadecimal digit, 0 for another byte.
fn digit(b: u8) -> u8
    ensures { result < 16 }
{
    match b {
        b'0'..=b'9' => b - b'0',
        b'a'..=b'f' => b - b'a' + 10,
        _ => 0,
    }
}

/// The byte that an escape of one letter stands for.
fn escaped(b: u8) -> u8 {
    match b {
        b'n' => b'\n',
        b't' => b'\t',
        b'r' => b'\r',
        b'f' => 12,
        _ => b,
    }
}

/// The bytes that a text of a table stands for: `\n`, `\t`, `\r`, `\f`, `\\` and `\xHH` are
/// escapes.
pub(crate) fn unescaped(alloc: Global, text: &[u8]) -> Result<Vec<u8>, AllocError> {
    let mut bytes = Vec::new(alloc);
    let mut rest = text;
    for _ in 0..text.len() {
        match rest {
            [] => return Ok(bytes),
            [b'\\', b'x', high, low, others @ ..] => {
                bytes.push(digit(*high) * 16 + digit(*low))?;
                rest = others;
            }
            [b'\\', b, others @ ..] => {
                bytes.push(escaped(*b))?;
                rest = others;
            }
            [b, others @ ..] => {
                bytes.push(*b)?;
                rest = others;
            }
        }
    }
    Ok(bytes)
}
