//! `search BUDGET VARS BITS.. 0 CLAUSES..`: the least bits; `trim` and the same words: with the
//! shorter log; `numbers BUDGET VARS ENDS.. 0 PARTS.. 0 BITS.. 0 CLAUSES..`: the same where the
//! bits spell numbers that end before these places, each with these parts; `within` and the same
//! words: only what was found, so that these rows show how much a search has to learn.
use crate::input::{are_below, clauses_of, lits_of, number_of, places_of};
use crate::output::{push_line, push_log, push_model, said_no};
use log_trim::trim_found;
use optimum_search::{Found, Number, Untold, search, search_by_numbers};
use plain_data::List;
use std::alloc::{AllocError, Global};

/// What `search` finds.
pub fn answer(
    alloc: Global,
    budget: &str,
    vars: &str,
    words: &[&str],
) -> Result<Vec<u8>, AllocError> {
    let (bits, rest) = lits_of(alloc, number_of(vars), words)?;
    let clauses = clauses_of(alloc, number_of(vars), rest)?;
    if !are_below(&bits, clauses.vars()) {
        return said_no(alloc);
    }
    let found = search(alloc, &clauses, &bits, number_of(budget))?;
    text_of(alloc, &found)
}

/// What `search` finds, with the log that `trim_found` leaves of its log.
pub fn answer_trimmed(
    alloc: Global,
    budget: &str,
    vars: &str,
    words: &[&str],
) -> Result<Vec<u8>, AllocError> {
    let (bits, rest) = lits_of(alloc, number_of(vars), words)?;
    let clauses = clauses_of(alloc, number_of(vars), rest)?;
    if !are_below(&bits, clauses.vars()) {
        return said_no(alloc);
    }
    let budget = number_of(budget);
    let found = search(alloc, &clauses, &bits, budget)?;
    let short = trim_found(alloc, &clauses, &bits, budget, found)?;
    text_of(alloc, &short)
}

/// What `search_by_numbers` finds.
pub fn answer_numbers(
    alloc: Global,
    budget: &str,
    vars: &str,
    words: &[&str],
) -> Result<Vec<u8>, AllocError> {
    match found_by_numbers(alloc, budget, vars, words)? {
        Some(found) => text_of(alloc, &found),
        None => said_no(alloc),
    }
}

/// Which of the three `search_by_numbers` finds. The log is left out: a row holds whatever is
/// learnt, as long as it is within the budget.
pub fn answer_within(
    alloc: Global,
    budget: &str,
    vars: &str,
    words: &[&str],
) -> Result<Vec<u8>, AllocError> {
    let word = match found_by_numbers(alloc, budget, vars, words)? {
        Some(Found::Optimal { .. }) => "optimal",
        Some(Found::Refuted { .. }) => "refuted",
        Some(Found::Spent { .. }) => "spent",
        None => "no",
    };
    let mut text = Vec::new(alloc);
    push_line(&mut text, word)?;
    Ok(text)
}

/// What `search_by_numbers` finds, where the bits are over the variables.
fn found_by_numbers(
    alloc: Global,
    budget: &str,
    vars: &str,
    words: &[&str],
) -> Result<Option<Found>, AllocError> {
    let (ends, words) = places_of(alloc, words)?;
    let (parts, words) = lits_of(alloc, number_of(vars), words)?;
    let (bits, rest) = lits_of(alloc, number_of(vars), words)?;
    let clauses = clauses_of(alloc, number_of(vars), rest)?;
    if !are_below(&bits, clauses.vars()) {
        return Ok(None);
    }
    let mut numbers = Vec::new(alloc);
    for end in ends {
        let parts = List::from_vec(Vec::from_slice(alloc, &parts)?);
        numbers.push(Number { end, parts })?;
    }
    let budget = number_of(budget);
    let found = search_by_numbers(alloc, &clauses, &bits, &numbers, budget, &mut Untold)?;
    Ok(Some(found))
}

/// `optimal` and the model, `refuted` or `spent`, and then the log.
fn text_of(alloc: Global, found: &Found) -> Result<Vec<u8>, AllocError> {
    let mut text = Vec::new(alloc);
    match found {
        Found::Optimal { model, log } => {
            text.extend_from_slice(b"optimal")?;
            push_model(alloc, &mut text, model.as_slice())?;
            push_log(alloc, &mut text, log.lines())?;
        }
        Found::Refuted { log } => {
            push_line(&mut text, "refuted")?;
            push_log(alloc, &mut text, log.lines())?;
        }
        Found::Spent { log } => {
            push_line(&mut text, "spent")?;
            push_log(alloc, &mut text, log.lines())?;
        }
    }
    Ok(text)
}
