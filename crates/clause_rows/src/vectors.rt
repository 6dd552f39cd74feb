//! Rows of totals.
ghost use Rattle.std.specs.Prelude.{◌≡◌, ◌<◌, ◌^◌, IfOk, IfSome};
ghost use Rattle.clause_circuits.specs.Trees.{total, TermsBelow};
ghost use Rattle.criteria_totals.specs.Totals.{AllTermsBelow, tops};
ghost use Rattle.criteria_totals.specs.Spellings.{AllSmall};

use crate::answer::Answer;
use crate::input::{parts, terms_of};
use clause_store::ClauseList;
use criteria_totals::{Bits, Terms, bits_of, totals};
use std::alloc::{AllocError, Global};

/// The command `totals` of lists of terms such as `3*1,2*-2`, and `spell` of a vector such as `3,6`
/// and as many lists, whose totals are to spell it.
pub fn ask(
    alloc: Global,
    clauses: &mut ClauseList,
    command: &str,
    words: &[&str],
) -> Result<Option<Answer>, AllocError> {
    if command == "totals" {
        return match bits(alloc, clauses, words)? {
            Some(bits) => Ok(Some(Answer::Lits(Vec::from_slice(alloc, bits.lits())?))),
            None => Ok(None),
        };
    }
    match words {
        [vector, lists @ ..] => match bits(alloc, clauses, lists)? {
            Some(bits) => spelled(alloc, &bits, vector),
            None => Ok(None),
        },
        _ => Ok(None),
    }
}

// The bits of lists of terms.
fn bits(
    alloc: Global,
    clauses: &mut ClauseList,
    words: &[&str],
) -> Result<Option<Bits>, AllocError> {
    match lists_of(alloc, words, clauses.vars())? {
        Some(lists) => Ok(Some(totals(alloc, clauses, lists.as_slice())?)),
        None => Ok(None),
    }
}

// The truth values of the bits that spell a vector.
fn spelled(alloc: Global, bits: &Bits, vector: &str) -> Result<Option<Answer>, AllocError> {
    let mut numbers: Vec<u64> = Vec::new(alloc);
    for word in parts(alloc, vector)?.as_slice() {
        numbers.push(word.parse::<u64>().unwrap_or(0))?;
    }
    if numbers.len() != bits.tops().len() {
        return Ok(None);
    }
    Ok(Some(Answer::Values(bits_of(alloc, bits, numbers.as_slice())?)))
}

// The lists of terms of some words: None where a word is none.
fn lists_of(alloc: Global, words: &[&str], vars: u64) -> Result<Option<Vec<Terms>>, AllocError>
    ensures in_range { IfOk result (λ lists. IfSome lists (λ ls. AllTermsBelow vars ls.items)) }
    ensures small { IfOk result (λ lists. IfSome lists (λ ls. AllSmall (tops ls.items))) }
{
    let mut lists = Vec::new(alloc);
    for word in words {
        match list_of(alloc, word, vars)? {
            Some(list) => lists.push(list)?,
            None => return Ok(None),
        }
    }
    Ok(Some(lists))
}

// The terms of a word.
fn list_of(alloc: Global, word: &str, vars: u64) -> Result<Option<Terms>, AllocError>
    ensures in_range { IfOk result (λ list. IfSome list (λ ts. TermsBelow vars ts)) }
    ensures small { IfOk result (λ list. IfSome list (λ ts. total ts < 2 ^ 63)) }
{
    let words = parts(alloc, word)?;
    match terms_of(alloc, words.as_slice(), vars)? {
        Some(terms) => Ok(Some(Terms::from_slice(alloc, terms.as_slice())?)),
        None => Ok(None),
    }
}
