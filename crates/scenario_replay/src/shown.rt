//! Bytes as they are shown: between quotation marks, as a scenario's quoted lines write them.
use std::alloc::AllocError;

/// How many bytes are shown at most.
const SHOWN: usize = 400;

fn hex_digit(n: u8) -> char {
    if n < 10 {
        char::from(b'0' + n)
    } else {
        char::from(b'a' + (n - 10) % 6)
    }
}

fn push_byte(text: &mut String, b: u8) -> Result<(), AllocError> {
    match b {
        b'\n' => text.push_str("\\n"),
        b'\t' => text.push_str("\\t"),
        b'\r' => text.push_str("\\r"),
        b'"' => text.push_str("\\\""),
        b'\\' => text.push_str("\\\\"),
        b' '..=b'~' => text.push(char::from(b)),
        _ => {
            text.push_str("\\x")?;
            text.push(hex_digit(b / 16))?;
            text.push(hex_digit(b % 16))
        }
    }
}

/// Adds the bytes between quotation marks; of many the first alone, and how many there are.
fn push_bytes(text: &mut String, bytes: &[u8]) -> Result<(), AllocError> {
    text.push('"')?;
    for b in &bytes[..bytes.len().min(SHOWN)] {
        push_byte(text, *b)?;
    }
    text.push('"')?;
    if bytes.len() > SHOWN {
        write!(text, " .. ({} bytes)", bytes.len())?;
    }
    Ok(())
}

/// Adds the bytes as they are shown, or what stands for none.
pub(crate) fn push_shown(
    text: &mut String,
    bytes: Option<&[u8]>,
    none: &str,
) -> Result<(), AllocError> {
    match bytes {
        Some(bytes) => push_bytes(text, bytes),
        None => text.push_str(none),
    }
}
