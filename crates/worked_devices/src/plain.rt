// Plain texts, lists and exact copies.
use crate::same::check_same;
use plain_data::{Duplicate, List, Same, Word};
use std::alloc::Global;
use std::cmp::Ordering;
use std::collections::HashSet;
use std::process::Abort;
use std::test::Fail;

const TEXTS: &[&str] = &["", "a", "zlib", "py-numpy", " a b\n", "é", "a\0b"];

fn check_word(rt: &impl Abort, alloc: Global, text: &str) -> Result<(), Fail> {
    let word = Word::new(alloc, text)?;
    assert_eq!(rt; word.as_str(), text);
    let copy = word.clone()?;
    assert_eq!(rt; copy.as_str(), text);
    check_same(rt, &(text, copy == word), &(text, true));
    let printed = word.to_string(alloc)?;
    assert_eq!(rt; printed.as_str(), text);
    Ok(())
}

#[test]
fn words_keep_their_texts(rt: HostRuntime) -> Result<(), Fail> {
    for text in TEXTS {
        check_word(&rt, rt.alloc(), text)?;
    }
    Ok(())
}

const RISING: &[&str] = &[
    "", "-", "B", "_", "a", "a-b", "a.b", "a0", "aa", "b", "z", "é",
];

/// Words that rise by their bytes.
fn check_order(rt: &impl Abort, a: &Word, b: &Word, wanted: Ordering) {
    let (left, right) = (a.as_str(), b.as_str());
    let equal = wanted == Ordering::Equal;
    check_same(rt, &(left, right, a.cmp(b)), &(left, right, wanted));
    check_same(
        rt,
        &(left, right, a.partial_cmp(b)),
        &(left, right, Some(wanted)),
    );
    check_same(rt, &(left, right, a == b), &(left, right, equal));
}

#[test]
fn words_are_ordered_by_bytes(rt: HostRuntime) -> Result<(), Fail> {
    let words = word_list(rt.alloc(), RISING)?;
    for (i, a) in words.as_slice().iter().enumerate() {
        for (j, b) in words.as_slice().iter().enumerate() {
            check_order(&rt, a, b, i.cmp(&j));
        }
    }
    assert_eq!(rt; words.len(), 12);
    Ok(())
}

/// Words that are put into a set, and whether each is new.
const PUT: &[(&str, bool)] = &[
    ("a", true),
    ("b", true),
    ("a", false),
    ("", true),
    ("ab", true),
];

/// Words, and whether they are in the set then.
const LOOKED_UP: &[(&str, bool)] = &[
    ("a", true),
    ("", true),
    ("ab", true),
    ("ba", false),
    ("c", false),
];

#[test]
fn words_are_hashed_by_their_texts(rt: HostRuntime) -> Result<(), Fail> {
    let alloc = rt.alloc();
    let mut set = HashSet::new(alloc);
    for row in PUT {
        let (text, is_new) = *row;
        let added = set.insert(Word::new(alloc, text)?)?;
        check_same(&rt, &(text, added), &(text, is_new));
    }
    for row in LOOKED_UP {
        let (text, is_there) = *row;
        let word = Word::new(alloc, text)?;
        check_same(&rt, &(text, set.contains(&word)), &(text, is_there));
    }
    Ok(())
}

const LISTS: &[&[u64]] = &[&[], &[7], &[3, 1, 2], &[0, 0, 5, 0, 9, 1, 1, 8, 2]];

fn check_list(rt: &impl Abort, list: &List<u64>, wanted: &[u64]) {
    assert_eq!(rt; list.as_slice(), wanted);
    assert_eq!(rt; list.len(), wanted.len());
    assert_eq!(rt; list.is_empty(), wanted.is_empty());
}

fn check_values(rt: &impl Abort, alloc: Global, wanted: &[u64]) -> Result<(), Fail> {
    let mut list = List::new(alloc);
    assert!(rt; list.is_empty());
    for value in wanted {
        list.push(*value)?;
    }
    let from = List::from_vec(Vec::from_slice(alloc, wanted)?);
    let copy = list.clone()?;
    check_list(rt, &list, wanted);
    check_list(rt, &from, wanted);
    check_list(rt, &copy, wanted);
    assert!(rt; from == list);
    assert!(rt; copy == list);
    let values = list.into_vec();
    assert_eq!(rt; values.as_slice(), wanted);
    Ok(())
}

#[test]
fn lists_keep_their_values(rt: HostRuntime) -> Result<(), Fail> {
    for wanted in LISTS {
        check_values(&rt, rt.alloc(), wanted)?;
    }
    Ok(())
}

/// Of values that are told apart, each has a copy that is the same, and none is the same as
/// another.
fn check_exact<T: Duplicate + Same>(
    rt: &impl Abort,
    alloc: Global,
    topic: &str,
    values: &[T],
) -> Result<(), Fail> {
    for (i, a) in values.iter().enumerate() {
        let copy = a.duplicate(alloc)?;
        for (j, b) in values.iter().enumerate() {
            let got = (topic, i, j, copy.same(b), a.same(b));
            check_same(rt, &got, &(topic, i, j, i == j, i == j));
        }
    }
    Ok(())
}

fn word_list(alloc: Global, texts: &[&str]) -> Result<List<Word>, Fail> {
    let mut words = List::new(alloc);
    for text in texts {
        words.push(Word::new(alloc, text)?)?;
    }
    Ok(words)
}

const WORDS: &[&str] = &["", "a", "b", "ab", "ba", "é"];

const NUMBERS: &[u64] = &[0, 1, 256, u64::MAX];

const OPTIONS: &[Option<u64>] = &[None, Some(0), Some(1), Some(u64::MAX)];

const PAIRS: &[(u64, Option<u64>)] = &[
    (0, None),
    (0, Some(0)),
    (0, Some(1)),
    (1, None),
    (1, Some(0)),
];

const WORD_LISTS: &[&[&str]] = &[&[], &[""], &["", ""], &["a", "b"], &["b", "a"], &["ab"]];

fn word_lists(alloc: Global) -> Result<Vec<List<Word>>, Fail> {
    let mut lists = Vec::new(alloc);
    for row in WORD_LISTS {
        lists.push(word_list(alloc, row)?)?;
    }
    Ok(lists)
}

#[test]
fn copies_are_exact(rt: HostRuntime) -> Result<(), Fail> {
    let alloc = rt.alloc();
    let words = word_list(alloc, WORDS)?;
    check_exact(&rt, alloc, "words", words.as_slice())?;
    check_exact(&rt, alloc, "numbers", NUMBERS)?;
    check_exact(&rt, alloc, "options", OPTIONS)?;
    check_exact(&rt, alloc, "pairs", PAIRS)?;
    let lists = word_lists(alloc)?;
    check_exact(&rt, alloc, "lists", &lists)
}
