//! Rows of formulas.
ghost use Rattle.std.specs.Prelude.{◌≡◌};
ghost use Rattle.clause_formulas.specs.Statements.{SaidBelow};

use crate::answer::Answer;
use crate::input::{lit_of, lits_of, parts};
use clause_formulas::{
    Defined, Formula, Gates, are_below, assert, define, define_all_in, demand_all_in, demand_in,
    is_below, literal,
};
use clause_store::{ClauseList, Label, Lit};
use std::alloc::{AllocError, Global};

/// The commands `define`, `literal` (of the value that is defined), `assert` and `demand` (of id 7)
/// of a formula, and `each` and `demands` (of ids from 0 on) of formulas that share their gates, in
/// Polish order backwards: a literal; `!` for the opposite; `|3` and `&3` for any and all of the
/// last three; `+` for both of the last two; `>` where the last but one implies the last; `^1,-2`
/// for exactly one of literals.
pub fn ask(
    alloc: Global,
    clauses: &mut ClauseList,
    command: &str,
    words: &[&str],
) -> Result<Option<Answer>, AllocError> {
    let mut stack = Vec::new(alloc);
    for word in words {
        if !push_word(alloc, &mut stack, word, clauses.vars())? {
            return Ok(None);
        }
    }
    if matches!(command, "each" | "demands") {
        return say_all(alloc, clauses, command, stack.as_slice());
    }
    match stack.pop() {
        Some(formula) => say(alloc, clauses, command, &formula),
        None => Ok(None),
    }
}

fn say_all(
    alloc: Global,
    clauses: &mut ClauseList,
    command: &str,
    formulas: &[Formula],
) -> Result<Option<Answer>, AllocError> {
    if !are_below(formulas, clauses.vars()) {
        return Ok(None);
    }
    let mut gates = Gates::new(alloc);
    if command == "each" {
        let values = define_all_in(alloc, clauses, &mut gates, formulas)?;
        return Ok(Some(Answer::Each(values)));
    }
    demand_all_in(alloc, clauses, &mut gates, formulas)?;
    Ok(Some(Answer::Lits(Vec::new(alloc))))
}

fn say(
    alloc: Global,
    clauses: &mut ClauseList,
    command: &str,
    formula: &Formula,
) -> Result<Option<Answer>, AllocError> {
    if !is_below(formula, clauses.vars()) {
        return Ok(None);
    }
    let mut lits = Vec::new(alloc);
    match command {
        "define" => match define(alloc, clauses, formula)? {
            Defined::Known(value) => return Ok(Some(Answer::Value(value))),
            Defined::By(lit) => lits.push(lit)?,
        },
        "literal" => lits.push(defined(alloc, clauses, formula)?)?,
        "assert" => assert(alloc, clauses, formula, Label::Structure)?,
        _ => demand_in(alloc, clauses, &mut Gates::new(alloc), formula, 7)?,
    }
    Ok(Some(Answer::Lits(lits)))
}

// A literal with the formula's value.
fn defined(alloc: Global, clauses: &mut ClauseList, formula: &Formula) -> Result<Lit, AllocError>
    requires { SaidBelow clauses.old.vars formula.now }
{
    let value = define(alloc, clauses, formula)?;
    literal(alloc, clauses, value)
}

// Puts a word's formula in the place of those that it takes; `false` where the word is none.
fn push_word(
    alloc: Global,
    stack: &mut Vec<Formula>,
    word: &str,
    vars: u64,
) -> Result<bool, AllocError> {
    let formula = match made(alloc, stack, word, vars)? {
        Some(formula) => formula,
        None => return Ok(false),
    };
    stack.push(formula)?;
    Ok(true)
}

fn made(
    alloc: Global,
    stack: &mut Vec<Formula>,
    word: &str,
    vars: u64,
) -> Result<Option<Formula>, AllocError> {
    if let Some(count) = word.strip_prefix('|') {
        return Ok(Some(Formula::any(last(alloc, stack, count)?)));
    }
    if let Some(count) = word.strip_prefix('&') {
        return Ok(Some(Formula::all(alloc, last(alloc, stack, count)?)?));
    }
    if let Some(list) = word.strip_prefix('^') {
        let words = parts(alloc, list)?;
        return match lits_of(alloc, words.as_slice(), vars)? {
            Some(lits) => Ok(Some(Formula::one(alloc, lits.as_slice())?)),
            None => Ok(None),
        };
    }
    match word {
        "!" => Ok(stack.pop().map(|formula| formula.negated())),
        "+" => match (stack.pop(), stack.pop()) {
            (Some(second), Some(first)) => Ok(Some(Formula::both(alloc, first, second)?)),
            _ => Ok(None),
        },
        ">" => match (stack.pop(), stack.pop()) {
            (Some(second), Some(first)) => Ok(Some(Formula::implies(alloc, first, second)?)),
            _ => Ok(None),
        },
        _ => Ok(lit_of(word, vars).map(|lit| Formula::lit(lit))),
    }
}

// The last formulas, as many as the word says or as there are.
fn last(alloc: Global, stack: &mut Vec<Formula>, count: &str) -> Result<Vec<Formula>, AllocError> {
    let count = count.parse::<usize>().unwrap_or(0).min(stack.len());
    let mut parts = Vec::new(alloc);
    for _i in 0..count {
        if let Some(formula) = stack.pop() {
            parts.push(formula)?;
        }
    }
    parts.reverse();
    Ok(parts)
}
