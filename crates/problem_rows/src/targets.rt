//! Rows of targets.
//!
//! Each item is `NAME` or `NAME:PARENT,PARENT`, an entry of the table, which is answered by how
//! many entries it has, or by its fault. Questions: `least TARGET LOW`, `range TARGET LOW HIGH`
//! with `-` for an end that is left out, `place TARGET`.

use crate::show::{push_bool, push_word};
use plain_data::{List, Word};
use std::alloc::{AllocError, Global};
use target_table::{TargetEntry, TargetFault, TargetTable};

/// `NAME` or `NAME:PARENT,PARENT`: a target and its parents.
fn target_of(alloc: Global, word: &str) -> Result<TargetEntry, AllocError> {
    let mut parents = List::new(alloc);
    let (name, rest) = match word.split_once(':') {
        Some((name, rest)) => (name, Some(rest)),
        None => (word, None),
    };
    if let Some(rest) = rest {
        for parent in rest.split(',') {
            parents.push(Word::new(alloc, parent)?)?;
        }
    }
    let name = Word::new(alloc, name)?;
    Ok(TargetEntry { name, parents })
}

/// What the table of these entries answers, or its fault.
pub(crate) fn answer(
    alloc: Global,
    text: &mut String,
    items: &[&str],
    questions: &[&str],
) -> Result<(), AllocError> {
    let mut entries = List::new(alloc);
    for item in items {
        entries.push(target_of(alloc, item)?)?;
    }
    match TargetTable::new(alloc, entries) {
        Ok(table) => ask_all(alloc, text, &table, questions),
        Err(TargetFault::OutOfMemory) => Err(AllocError),
        Err(fault) => {
            let fault = format!(in alloc; "{fault}")?;
            text.push_str(fault.as_str())
        }
    }
}

fn ask_all(
    alloc: Global,
    text: &mut String,
    table: &TargetTable,
    questions: &[&str],
) -> Result<(), AllocError> {
    let count = format!(in alloc; "{}", table.entries().len())?;
    text.push_str(count.as_str())?;
    for question in questions {
        let words: Vec<&str> = question.split_whitespace().collect(alloc)?;
        text.push_str(" |")?;
        ask(alloc, text, table, words.as_slice())?;
    }
    Ok(())
}

fn ask(
    alloc: Global,
    text: &mut String,
    table: &TargetTable,
    words: &[&str],
) -> Result<(), AllocError> {
    match words {
        [what, target] if *what == "place" => match table.place(target) {
            Some(place) => {
                let place = format!(in alloc; "{place}")?;
                push_word(text, place.as_str())
            }
            None => push_word(text, "none"),
        },
        [what, target, low] if *what == "least" => push_bool(text, table.at_least(target, low)),
        [what, target, low, high] if *what == "range" => {
            push_bool(text, table.in_range(target, end_of(low), end_of(high)))
        }
        _ => push_word(text, "no"),
    }
}

fn end_of(word: &str) -> Option<&str> {
    if word == "-" { None } else { Some(word) }
}
