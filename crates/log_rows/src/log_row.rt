//! `check_log VALUES VARS BITS.. 0 CLAUSES.. | TEXT`: what the checkers answer to a text over these
//! clauses and bits.
//!
//! VALUES are the bits' values, each 0 or 1, after `=`; or `-` for a refutation. TEXT is that of a
//! log, its words parted by white space and each of its lines ended by a word `/`. It is read in
//! one piece and in pieces of one byte; its lines, where none is bad, are checked in turn, in
//! blocks of 1, 2 and 1,024, and as a whole. The answer is one where all are the same.

ghost use Rattle.std.specs.Prelude.{◌<◌};

use crate::answers::{joined, step_text, text_answer};
use crate::input::{bits_of_word, clauses_of, lits_of, number_of, text_of_words};
use certified::{TextChecker, check_certificate, check_refutation};
use clause_store::{ClauseList, Lit};
use log_checker::{Checker, OpenGate, Step};
use proof_log::{Line, Reader};
use std::alloc::{AllocError, Global};
use std::thread::Threads;

/// How many bytes a text is read in at once.
const PIECE: usize = 65_536;

/// How many lines are checked at once.
const BLOCK: usize = 1024;

/// What a log speaks of: a certificate of the values of the bits, or a refutation where there are
/// none.
#[derive(Drop)]
struct Case {
    clauses: ClauseList,
    bits: Vec<Lit>,
    values: Option<Vec<bool>>,
}

impl Case {
    fn values(&self) -> Option<&[bool]> {
        match &self.values {
            Some(values) => Some(values.as_slice()),
            None => None,
        }
    }

    fn checker(&self, alloc: Global) -> Result<Checker, AllocError> {
        Checker::new(alloc, &self.clauses, &self.bits, self.values())
    }
}

pub fn answer<R: Threads + Sync>(
    rt: &R,
    alloc: Global,
    values: &str,
    vars: &str,
    words: &[&str],
) -> Result<String, AllocError> {
    let (bits, rest) = lits_of(alloc, number_of(vars), words)?;
    let bar = rest
        .iter()
        .position(|word| *word == "|")
        .unwrap_or(rest.len());
    let (words, text) = rest.split_at(bar);
    let case = Case {
        clauses: clauses_of(alloc, number_of(vars), words)?,
        bits,
        values: bits_of_word(alloc, values)?,
    };
    let text = text_of_words(alloc, text)?;
    let mut answers = Vec::new(alloc);
    answers.push(in_pieces(rt, alloc, &case, &text, PIECE)?)?;
    answers.push(in_pieces(rt, alloc, &case, &text, 1)?)?;
    let mut reader = Reader::new(alloc);
    let mut lines = Vec::new(alloc);
    if reader.feed(alloc, &text, &mut lines).is_ok() && reader.at_line_start() {
        of_lines(rt, alloc, &case, &lines, &mut answers)?;
    }
    joined(alloc, &answers)
}

/// The answer to a text in pieces of so many bytes.
fn in_pieces<R: Threads + Sync>(
    rt: &R,
    alloc: Global,
    case: &Case,
    text: &[u8],
    size: usize,
) -> Result<String, AllocError>
    requires { 0 < size }
{
    let mut checker = TextChecker::new(alloc, &case.clauses, &case.bits, case.values())?;
    for piece in text.chunks(size) {
        if !checker.take(rt, piece)? {
            break;
        }
    }
    text_answer(alloc, checker.finish())
}

/// The answers to lines, however they are handed over.
fn of_lines<R: Threads + Sync>(
    rt: &R,
    alloc: Global,
    case: &Case,
    lines: &[Line],
    answers: &mut Vec<String>,
) -> Result<(), AllocError> {
    answers.push(in_turn(alloc, case, lines)?)?;
    answers.push(in_blocks(rt, alloc, case, lines, 1)?)?;
    answers.push(in_blocks(rt, alloc, case, lines, 2)?)?;
    answers.push(in_blocks(rt, alloc, case, lines, BLOCK)?)?;
    let step = whole(rt, alloc, case, lines)?;
    answers.push(step_text(alloc, step)?)?;
    Ok(())
}

fn in_turn(alloc: Global, case: &Case, lines: &[Line]) -> Result<String, AllocError> {
    let mut checker = case.checker(alloc)?;
    for line in lines {
        checker.step(line)?;
    }
    step_text(alloc, checker.finish())
}

fn in_blocks<R: Threads + Sync>(
    rt: &R,
    alloc: Global,
    case: &Case,
    lines: &[Line],
    size: usize,
) -> Result<String, AllocError>
    requires { 0 < size }
{
    let mut checker = case.checker(alloc)?;
    for block in lines.chunks(size) {
        checker.step_block(rt, &OpenGate, block)?;
    }
    step_text(alloc, checker.finish())
}

fn whole<R: Threads + Sync>(
    rt: &R,
    alloc: Global,
    case: &Case,
    lines: &[Line],
) -> Result<Step, AllocError> {
    match case.values() {
        Some(values) => check_certificate(rt, alloc, &case.clauses, &case.bits, values, lines),
        None => check_refutation(rt, alloc, &case.clauses, &case.bits, lines),
    }
}
