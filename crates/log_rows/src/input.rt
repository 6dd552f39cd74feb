//! Words of a row: numbers, literals, and lists of them that end with 0.
ghost use Rattle.std.specs.Prelude.{◌≡◌, ◌<◌, IfSome, true};
ghost use Rattle.clause_store.specs.Lits.{AllBelow, var_of};

use clause_store::{Clause, ClauseList, Label, Lit, Var};
use std::alloc::{AllocError, Global};

/// A number, and 0 where the word is none.
pub fn number_of(word: &str) -> u64 {
    word.parse::<u64>().unwrap_or(0)
}

/// The literal of a word, where its variable is below `vars`.
pub fn lit_of(word: &str, vars: u64) -> Option<Lit>
    ensures { IfSome result (λ lit. var_of lit < vars) }
{
    let number = word.parse::<i64>().unwrap_or(0);
    let var = number.unsigned_abs();
    if var == 0 || var > vars {
        return None;
    }
    Some(Lit {
        var: Var(var - 1),
        positive: number > 0,
    })
}

/// A list over so many variables, with the clauses of these words, each a demand that is its place
/// from 0.
/// A clause with a literal out of range or with both signs of a variable is left out.
pub fn clauses_of(alloc: Global, vars: u64, words: &[&str]) -> Result<ClauseList, AllocError> {
    labelled_clauses(alloc, vars, 0, words)
}

/// The same, but that so many first clauses are of the structure, and the demands are numbered
/// behind them.
pub fn labelled_clauses(
    alloc: Global,
    vars: u64,
    structure: u64,
    words: &[&str],
) -> Result<ClauseList, AllocError> {
    let mut clauses = ClauseList::new(alloc);
    for _i in 0..vars {
        clauses.new_var()?;
    }
    let mut lits = Vec::new(alloc);
    for word in words {
        match lit_of(word, clauses.vars()) {
            Some(lit) => lits.push(lit)?,
            None => {
                let label = label_at(clauses.len(), structure);
                add_labelled(alloc, &mut clauses, &lits, label)?;
                lits.clear();
            }
        }
    }
    Ok(clauses)
}

/// One more clause, if its literals are in range and of no variable twice with both signs.
pub fn add(alloc: Global, clauses: &mut ClauseList, lits: &[Lit]) -> Result<(), AllocError> {
    let label = Label::Demand(clauses.len());
    add_labelled(alloc, clauses, lits, label)
}

/// The label of the clause at a place, where so many first ones are of the structure.
fn label_at(place: u64, structure: u64) -> Label {
    if place < structure {
        Label::Structure
    } else {
        Label::Demand(place - structure)
    }
}

fn add_labelled(
    alloc: Global,
    clauses: &mut ClauseList,
    lits: &[Lit],
    label: Label,
) -> Result<(), AllocError> {
    if let Some(clause) = Clause::new(alloc, lits)? {
        if are_below(clause.lits(), clauses.vars()) {
            clauses.add(clause, label)?;
        }
    }
    Ok(())
}

/// Whether each variable is below a number.
pub fn are_below(lits: &[Lit], vars: u64) -> bool
    ensures { result ≡ true → AllBelow vars lits.now }
{
    for lit in lits {
        if lit.var.0 >= vars {
            return false;
        }
    }
    true
}

/// The literals before the first word that is none, and the words after it.
pub fn lits_of<'a>(
    alloc: Global,
    vars: u64,
    words: &'a [&'a str],
) -> Result<(Vec<Lit>, &'a [&'a str]), AllocError> {
    let mut lits = Vec::new(alloc);
    for (place, word) in words.iter().enumerate() {
        match lit_of(word, vars) {
            Some(lit) => lits.push(lit)?,
            None => return Ok((lits, &words[place + 1..])),
        }
    }
    Ok((lits, &[]))
}

/// The numbers before the first word that is none or 0, and the words after it.
pub fn places_of<'a>(
    alloc: Global,
    words: &'a [&'a str],
) -> Result<(Vec<usize>, &'a [&'a str]), AllocError> {
    let mut places = Vec::new(alloc);
    for (place, word) in words.iter().enumerate() {
        match number_of(word) {
            0 => return Ok((places, &words[place + 1..])),
            number => places.push(number as usize)?,
        }
    }
    Ok((places, &[]))
}

/// The values that a word spells, as `=10`; none where it is another.
pub fn bits_of_word(alloc: Global, word: &str) -> Result<Option<Vec<bool>>, AllocError> {
    match word.as_bytes() {
        [b'=', digits @ ..] => Ok(Some(digits.iter().map(|b| *b == b'1').collect(alloc)?)),
        _ => Ok(None),
    }
}

/// The words after a first one, parted by spaces. A word `/` is a line feed, and `_` a space of its
/// own.
pub fn text_of_words(alloc: Global, words: &[&str]) -> Result<Vec<u8>, AllocError> {
    let mut text = Vec::new(alloc);
    let mut is_first = true;
    for word in words.iter().skip(1) {
        if *word == "/" {
            text.push(b'\n')?;
            is_first = true;
            continue;
        }
        if !is_first {
            text.push(b' ')?;
        }
        if *word != "_" {
            text.extend_from_slice(word.as_bytes())?;
        }
        is_first = false;
    }
    Ok(text)
}
