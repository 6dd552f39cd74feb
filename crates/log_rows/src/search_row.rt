//! `check_search BUDGET VARS BITS.. 0 CLAUSES..`: what the checkers answer to the log that a search
//! writes. Each clause is a demand, numbered from 0; a refutation is answered with its reasons.

use crate::answers::{joined, step_text, text_answer};
use crate::input::{are_below, clauses_of, lits_of, number_of};
use certified::{check_certificate, check_refutation, check_text};
use clause_store::{ClauseList, Lit};
use explain_failure::reasons;
use optimum_search::{Found, search};
use proof_log::{Line, Log, may_write, write_line};
use std::alloc::{AllocError, Global};
use std::thread::Threads;

pub fn answer<R: Threads + Sync>(
    rt: &R,
    alloc: Global,
    budget: &str,
    vars: &str,
    words: &[&str],
) -> Result<String, AllocError> {
    let (bits, rest) = lits_of(alloc, number_of(vars), words)?;
    let clauses = clauses_of(alloc, number_of(vars), rest)?;
    if !are_below(&bits, clauses.vars()) {
        return String::from_str(alloc, "no");
    }
    match search(alloc, &clauses, &bits, number_of(budget))? {
        Found::Optimal { model, log } => {
            let values = values_of(alloc, model.as_slice(), &bits)?;
            let step = check_certificate(rt, alloc, &clauses, &bits, &values, log.lines())?;
            let lines = step_text(alloc, step)?;
            let text = text_checked(rt, alloc, &clauses, &bits, Some(&values), log.lines())?;
            let both = joined(alloc, &[lines, text])?;
            format!(in alloc; "optimal {both}")
        }
        Found::Refuted { log } => {
            let step = check_refutation(rt, alloc, &clauses, &bits, log.lines())?;
            let lines = step_text(alloc, step)?;
            let text = text_checked(rt, alloc, &clauses, &bits, None, log.lines())?;
            let both = joined(alloc, &[lines, text])?;
            let demands = reasons(alloc, &clauses, &log)?;
            let numbers = numbers_text(alloc, demands.as_slice())?;
            format!(in alloc; "refuted {both}, reasons{numbers}")
        }
        Found::Spent { .. } => String::from_str(alloc, "spent"),
    }
}

/// The values of bits in a model.
pub fn values_of(alloc: Global, model: &[bool], bits: &[Lit]) -> Result<Vec<bool>, AllocError> {
    let mut values = Vec::new(alloc);
    for bit in bits {
        let value = model.get(bit.var.0 as usize).copied().unwrap_or(false);
        values.push(value == bit.positive)?;
    }
    Ok(values)
}

/// The answer to the text of a log.
fn text_checked<R: Threads + Sync>(
    rt: &R,
    alloc: Global,
    clauses: &ClauseList,
    bits: &[Lit],
    values: Option<&[bool]>,
    lines: &[Line],
) -> Result<String, AllocError> {
    let mut text = Vec::new(alloc);
    for line in lines {
        if may_write(line) {
            write_line(alloc, line, &mut text)?;
            text.push(b'\n')?;
        }
    }
    text_answer(alloc, check_text(rt, alloc, clauses, bits, values, &text)?)
}

fn numbers_text(alloc: Global, numbers: &[u64]) -> Result<String, AllocError> {
    let mut text = String::new(alloc);
    for number in numbers {
        text.push_str(format!(in alloc; " {number}")?.as_str())?;
    }
    Ok(text)
}
