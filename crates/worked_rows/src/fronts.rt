//! Where a text that is no set goes wrong, by a second definition and by brute force.
use crate::stop::Stop;
use std::alloc::{AllocError, Global};
use version_order::{VersionSet, VersionSetFault, list_front};

const SIGNS: [u8; 6] = [b'1', b'2', b'.', b'=', b':', b','];

fn is_first(b: u8) -> bool {
    b.is_ascii_alphanumeric() || b == b'_'
}

fn is_version(text: &[u8]) -> bool {
    match text {
        [] => false,
        [first, rest @ ..] => {
            is_first(*first)
                && rest
                    .iter()
                    .all(|b| is_first(*b) || *b == b'.' || *b == b'-')
        }
    }
}

fn is_end(text: &[u8]) -> bool {
    text.is_empty() || is_version(text)
}

fn is_range(text: &[u8]) -> bool {
    for (i, b) in text.iter().enumerate() {
        if *b == b':' {
            return is_end(&text[..i]) && is_end(&text[i + 1..]);
        }
    }
    false
}

fn is_item(text: &[u8]) -> bool {
    match text {
        [b'=', rest @ ..] => is_version(rest),
        _ => is_version(text) || is_range(text),
    }
}

/// Whether a text is a list: what stands between its commas are items.
fn is_list(text: &[u8]) -> bool {
    let mut from = 0;
    for (i, b) in text.iter().enumerate() {
        if *b == b',' {
            if from > i || !is_item(&text[from..i]) {
                return false;
            }
            from = i + 1;
        }
    }
    from <= text.len() && is_item(&text[from..])
}

/// The text with this number among those of this length.
fn spell(text: &mut Vec<u8>, length: usize, number: usize) -> Result<(), AllocError> {
    let mut left = number;
    for _ in 0..length {
        text.push(SIGNS[left % 6])?;
        left /= 6;
    }
    Ok(())
}

/// How many texts have this length.
const COUNTS: [usize; 6] = [1, 6, 36, 216, 1296, 7776];

/// Lengths of texts, and how many texts have each.
const MORE: &[(usize, usize)] = &[(0, 1), (1, 6), (2, 36)];

/// Whether some list begins with a text: with it and at most two signs more.
fn begins_a_list(alloc: Global, front: &[u8]) -> Result<bool, AllocError> {
    for row in MORE {
        let (length, count) = *row;
        for number in 0..count {
            let mut text = Vec::from_slice(alloc, front)?;
            spell(&mut text, length, number)?;
            if is_list(&text) {
                return Ok(true);
            }
        }
    }
    Ok(false)
}

/// The length of the longest front of a text that some list begins with.
fn longest_front(alloc: Global, text: &[u8]) -> Result<usize, AllocError> {
    let mut longest = 0;
    for length in 0..text.len() + 1 {
        if begins_a_list(alloc, &text[..length])? {
            longest = length;
        }
    }
    Ok(longest)
}

/// What the reader answers of a text, but for empty ranges.
fn fault_of(alloc: Global, text: &[u8]) -> Option<VersionSetFault> {
    match VersionSet::from_bytes(alloc, text) {
        Ok(_) | Err(VersionSetFault::EmptyRange(_)) => None,
        Err(fault) => Some(fault),
    }
}

/// What the second definition says of it.
fn wanted_fault(text: &[u8], longest: usize) -> Option<VersionSetFault> {
    if text.is_empty() {
        Some(VersionSetFault::Empty)
    } else if is_list(text) {
        None
    } else {
        Some(VersionSetFault::BadByte(longest as u64))
    }
}

/// Whether the readers say of a text what the second definition says.
fn is_as_defined(alloc: Global, text: &[u8]) -> Result<bool, AllocError> {
    let longest = longest_front(alloc, text)?;
    let (front, whole) = list_front(text);
    let is_same_fault = fault_of(alloc, text) == wanted_fault(text, longest);
    let is_same_end = longest < text.len() || whole == is_list(text);
    Ok(front == longest && is_same_fault && is_same_end)
}

/// How many texts of that many signs there are, or the first of which the readers say something
/// else.
fn count_of(alloc: Global, length: usize, count: usize) -> Result<String, AllocError> {
    for number in 0..count {
        let mut text = Vec::new(alloc);
        spell(&mut text, length, number)?;
        if !is_as_defined(alloc, &text)? {
            return String::from_utf8_lossy(alloc, &text);
        }
    }
    format!(in alloc; "{count}")
}

/// The same for a length as a text.
pub(crate) fn answer(alloc: Global, length: &str) -> Result<String, Stop> {
    let Ok(length) = length.parse::<usize>() else {
        return Err(Stop::NoRow);
    };
    match COUNTS.get(length) {
        Some(count) => Ok(count_of(alloc, length, *count)?),
        None => Err(Stop::NoRow),
    }
}
