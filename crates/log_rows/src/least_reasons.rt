//! `reasons BUDGET VARS STRUCTURE CLAUSES..`: a least list of demands. So many first clauses are of
//! the structure; each other one is a demand, numbered from 0. Behind a least list stands how many
//! of its models meet all others. `is_least` and the same words say only whether the list is one,
//! by a look at each assignment.

use crate::input::{labelled_clauses, number_of};
use clause_store::{ClauseList, Entry, Label};
use plain_data::List;
use reason_minimum::{LeastReasons, least};
use std::alloc::{AllocError, Global};

/// What `least` finds.
pub fn answer(
    alloc: Global,
    budget: &str,
    vars: &str,
    structure: &str,
    words: &[&str],
) -> Result<String, AllocError> {
    let clauses = labelled_clauses(alloc, number_of(vars), number_of(structure), words)?;
    match least(alloc, &clauses, number_of(budget))? {
        LeastReasons::Satisfiable { model } => {
            let meets = is_model(alloc, &clauses, &[], true, model.as_slice())?;
            format!(in alloc; "satisfiable {meets}")
        }
        LeastReasons::Minimal { demands, models } => {
            let right = right_models(alloc, &clauses, demands.as_slice(), models.as_slice())?;
            let numbers = numbers_text(alloc, demands.as_slice())?;
            format!(in alloc; "minimal{numbers}, models {right}")
        }
        LeastReasons::Spent { demands, more, .. } => {
            let numbers = numbers_text(alloc, demands.as_slice())?;
            let alone = more.is_none();
            format!(in alloc; "spent{numbers}, all {alone}")
        }
    }
}

/// Whether what `least` finds is a least list of demands.
pub fn answer_least(
    alloc: Global,
    budget: &str,
    vars: &str,
    structure: &str,
    words: &[&str],
) -> Result<String, AllocError> {
    let clauses = labelled_clauses(alloc, number_of(vars), number_of(structure), words)?;
    match least(alloc, &clauses, number_of(budget))? {
        LeastReasons::Minimal { demands, .. } => {
            let unmet = !has_model(alloc, &clauses, demands.as_slice())?;
            let needed = needed_of(alloc, &clauses, demands.as_slice())?;
            format!(in alloc; "unmet {unmet}, needed {}", needed == demands.len())
        }
        _ => String::from_str(alloc, "no"),
    }
}

/// How many demands of a list cannot be left out.
fn needed_of(alloc: Global, clauses: &ClauseList, demands: &[u64]) -> Result<usize, AllocError> {
    let mut needed = Vec::new(alloc);
    for demand in demands {
        let others = others_of(alloc, demands, *demand)?;
        if has_model(alloc, clauses, &others)? {
            needed.push(*demand)?;
        }
    }
    Ok(needed.len())
}

/// The models of a list that meet all other demands.
fn right_models(
    alloc: Global,
    clauses: &ClauseList,
    demands: &[u64],
    models: &[List<bool>],
) -> Result<usize, AllocError> {
    let mut right = Vec::new(alloc);
    for (demand, model) in demands.iter().zip(models) {
        let others = others_of(alloc, demands, *demand)?;
        if is_model(alloc, clauses, &others, false, model.as_slice())? {
            right.push(*demand)?;
        }
    }
    Ok(right.len())
}

/// A list without one demand.
fn others_of(alloc: Global, demands: &[u64], demand: u64) -> Result<Vec<u64>, AllocError> {
    let mut others = Vec::new(alloc);
    for other in demands {
        if *other != demand {
            others.push(*other)?;
        }
    }
    Ok(others)
}

/// Whether some assignment of at most 16 variables meets the clauses of some demands.
fn has_model(alloc: Global, clauses: &ClauseList, demands: &[u64]) -> Result<bool, AllocError> {
    for number in 0..(1 << clauses.vars().min(16)) {
        let model = values_of(alloc, clauses.vars(), number)?;
        if is_model(alloc, clauses, demands, false, &model)? {
            return Ok(true);
        }
    }
    Ok(false)
}

/// The values that a number spells, the first variable being its last bit.
fn values_of(alloc: Global, vars: u64, number: u64) -> Result<Vec<bool>, AllocError> {
    let mut values = Vec::new(alloc);
    let mut left = number;
    for _var in 0..vars {
        values.push(left % 2 == 1)?;
        left = left / 2;
    }
    Ok(values)
}

/// Whether a model meets the clauses of the structure and of some demands, or of all.
fn is_model(
    alloc: Global,
    clauses: &ClauseList,
    demands: &[u64],
    all: bool,
    model: &[bool],
) -> Result<bool, AllocError> {
    for place in 0..clauses.len() {
        if let Some(entry) = clauses.entry(alloc, place + 1)? {
            if (all || is_for(entry.label, demands)) && !is_met(&entry, model) {
                return Ok(false);
            }
        }
    }
    Ok(true)
}

fn is_for(label: Label, demands: &[u64]) -> bool {
    match label {
        Label::Structure => true,
        Label::Demand(demand) => demands.contains(&demand),
    }
}

fn is_met(entry: &Entry, model: &[bool]) -> bool {
    for lit in entry.clause.lits() {
        if model.get(lit.var.0 as usize).copied() == Some(lit.positive) {
            return true;
        }
    }
    false
}

fn numbers_text(alloc: Global, numbers: &[u64]) -> Result<String, AllocError> {
    let mut text = String::new(alloc);
    for number in numbers {
        text.push_str(format!(in alloc; " {number}")?.as_str())?;
    }
    Ok(text)
}
