//! Words as counts, literals and terms.
ghost use Rattle.std.specs.Prelude.{◌≡◌, ◌<◌, ◌^◌, IfOk, IfSome, IsTrue};
ghost use Rattle.clause_store.specs.Lits.{AllBelow, var_of};
ghost use Rattle.clause_circuits.specs.Trees.{total, TermsBelow};

use clause_store::{ClauseList, Lit, Var};
use std::alloc::{AllocError, Global};

/// How many variables a word asks for: at most 1,000, and none where it is no number.
pub fn count_of(word: &str) -> u64 {
    word.parse::<u64>().unwrap_or(0).min(1000)
}

/// Makes so many variables.
pub fn add_vars(clauses: &mut ClauseList, count: u64) -> Result<(), AllocError> {
    for _i in 0..count {
        clauses.new_var()?;
    }
    Ok(())
}

/// The parts of a word between commas; `-` has none.
pub fn parts<'a>(alloc: Global, word: &'a str) -> Result<Vec<&'a str>, AllocError> {
    if word == "-" {
        return Ok(Vec::new(alloc));
    }
    word.split(',').collect(alloc)
}

/// The literal of a word, over so many variables.
pub fn lit_of(word: &str, vars: u64) -> Option<Lit>
    ensures { IfSome result (λ lit. var_of lit < vars) }
{
    let number = word.parse::<i64>().unwrap_or(0);
    let var = number.unsigned_abs();
    if var == 0 || var > vars {
        return None;
    }
    Some(Lit {
        var: Var(var - 1),
        positive: number > 0,
    })
}

/// The literals of some words: None where a word is none.
pub fn lits_of(alloc: Global, words: &[&str], vars: u64) -> Result<Option<Vec<Lit>>, AllocError>
    ensures { IfOk result (λ lits. IfSome lits (λ ls. AllBelow vars ls.items)) }
{
    let mut lits = Vec::new(alloc);
    for word in words {
        match lit_of(word, vars) {
            Some(lit) => lits.push(lit)?,
            None => return Ok(None),
        }
    }
    Ok(Some(lits))
}

/// The terms of words such as `3*-1`: None where a word is none, or the weights are too many.
pub fn terms_of(
    alloc: Global,
    words: &[&str],
    vars: u64,
) -> Result<Option<Vec<(u64, Lit)>>, AllocError>
    ensures in_range { IfOk result (λ terms. IfSome terms (λ ts. TermsBelow vars ts.items)) }
    ensures small { IfOk result (λ terms. IfSome terms (λ ts. total ts.items < 2 ^ 63)) }
{
    let mut terms = Vec::new(alloc);
    for word in words {
        match term_of(word, vars) {
            Some(term) => terms.push(term)?,
            None => return Ok(None),
        }
    }
    if !are_small(terms.as_slice()) {
        return Ok(None);
    }
    Ok(Some(terms))
}

fn term_of(word: &str, vars: u64) -> Option<(u64, Lit)>
    ensures { IfSome result (λ term. var_of term.1 < vars) }
{
    let (weight, lit) = word.split_once('*')?;
    Some((weight.parse::<u64>().ok()?, lit_of(lit, vars)?))
}

// Whether the weights' sum is below 2^63.
fn are_small(terms: &[(u64, Lit)]) -> bool
    ensures { IsTrue result → total terms.now < 2 ^ 63 }
{
    let mut left = (1u64 << 63) - 1;
    for term in terms {
        if term.0 > left {
            return false;
        }
        left -= term.0;
    }
    true
}
