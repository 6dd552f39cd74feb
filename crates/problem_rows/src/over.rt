//! Rows over a table of targets or a graph of their own.
//!
//! What stands behind `over` is `targets` or `graph`, what it is made of, and questions, each
//! behind a `|`; or `plan` and the items of a graph. The items and the questions stand at
//! `targets`, `graphs` and `plans`; a question that no call takes is answered by `no`.

use crate::{graphs, plans, targets};
use std::alloc::{AllocError, Global};

/// What the calls on it answer.
pub(crate) fn answer(alloc: Global, line: &str) -> Result<String, AllocError> {
    let parts: Vec<&str> = line.split('|').collect(alloc)?;
    let mut text = String::new(alloc);
    let [made, questions @ ..] = parts.as_slice() else {
        return Ok(text);
    };
    let words: Vec<&str> = made.split_whitespace().collect(alloc)?;
    match words.as_slice() {
        [kind, items @ ..] if *kind == "targets" => {
            targets::answer(alloc, &mut text, items, questions)?;
        }
        [kind, items @ ..] if *kind == "graph" => {
            graphs::answer(alloc, &mut text, items, questions)?;
        }
        [kind, items @ ..] if *kind == "plan" => plans::answer(alloc, &mut text, items)?,
        _ => text.push_str("no")?,
    }
    Ok(text)
}
