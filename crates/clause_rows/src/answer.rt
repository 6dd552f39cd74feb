//! What a call answers, and the text of it.
use clause_formulas::Defined;
use clause_store::{ClauseList, Entry, Label, Lit};
use std::alloc::{AllocError, Global};

/// Literals, or a truth value; a value for each formula; a literal for each asked pair, or none;
/// truth values, or none.
#[derive(Drop)]
pub enum Answer {
    Lits(Vec<Lit>),
    Value(bool),
    Each(Vec<Defined>),
    Paths(Vec<Option<Lit>>),
    Values(Option<Vec<bool>>),
}

fn push_answer(alloc: Global, text: &mut String, answer: &Answer) -> Result<(), AllocError> {
    match answer {
        Answer::Lits(lits) => push_lits(alloc, text, lits.as_slice()),
        Answer::Value(value) => push_value(text, *value),
        Answer::Each(values) => push_each(alloc, text, values.as_slice()),
        Answer::Paths(paths) => push_paths(alloc, text, paths.as_slice()),
        Answer::Values(None) => text.push_str("none "),
        Answer::Values(Some(values)) => push_values(text, values.as_slice()),
    }
}

/// The line that answers.
pub fn text_of(
    alloc: Global,
    answer: &Option<Answer>,
    clauses: &ClauseList,
) -> Result<String, AllocError> {
    let Some(answer) = answer else {
        return String::from_str(alloc, "no");
    };
    let mut text = String::new(alloc);
    push_answer(alloc, &mut text, answer)?;
    let vars = format!(in alloc; "; {} ; ", clauses.vars())?;
    text.push_str(vars.as_str())?;
    for place in 0..clauses.len() {
        if let Some(entry) = clauses.entry(alloc, place + 1)? {
            push_entry(alloc, &mut text, &entry)?;
        }
    }
    Ok(text)
}

fn push_entry(alloc: Global, text: &mut String, entry: &Entry) -> Result<(), AllocError> {
    if let Label::Demand(id) = entry.label {
        let label = format!(in alloc; "d{id} ")?;
        text.push_str(label.as_str())?;
    }
    push_lits(alloc, text, entry.clause.lits())?;
    text.push_str("0 ")?;
    Ok(())
}

fn push_lits(alloc: Global, text: &mut String, lits: &[Lit]) -> Result<(), AllocError> {
    for lit in lits {
        let sign = if lit.positive { "" } else { "-" };
        let word = format!(in alloc; "{sign}{} ", lit.var.0.wrapping_add(1))?;
        text.push_str(word.as_str())?;
    }
    Ok(())
}

fn push_value(text: &mut String, value: bool) -> Result<(), AllocError> {
    text.push_str(if value { "true " } else { "false " })?;
    Ok(())
}

fn push_each(alloc: Global, text: &mut String, values: &[Defined]) -> Result<(), AllocError> {
    for value in values {
        match value {
            Defined::Known(value) => push_value(text, *value)?,
            Defined::By(lit) => push_lits(alloc, text, &[*lit])?,
        }
    }
    Ok(())
}

fn push_paths(alloc: Global, text: &mut String, paths: &[Option<Lit>]) -> Result<(), AllocError> {
    for path in paths {
        match path {
            Some(lit) => push_lits(alloc, text, &[*lit])?,
            None => text.push_str("none ")?,
        }
    }
    Ok(())
}

fn push_values(text: &mut String, values: &[bool]) -> Result<(), AllocError> {
    for value in values {
        text.push_str(if *value { "1 " } else { "0 " })?;
    }
    Ok(())
}
