//! `log PIECE VARS BITS.. 0 CLAUSES..`: the log of a search, written, and read again in pieces of
//! so many bytes.
ghost use Rattle.std.specs.Prelude.{◌≡◌, ◌<◌, true};
ghost use Rattle.proof_log.specs.Lines.{AllLines};
ghost use Rattle.proof_log.specs.Texts.{may_write};

use crate::input::{are_below, clauses_of, lits_of, number_of};
use crate::output::{push_line, push_log, said_no};
use optimum_search::{Found, search};
use proof_log::{Line, Log, LogFault, Reader, log_text, may_write, read_line, write_line};
use std::alloc::{AllocError, Global};

/// How many clauses the search may learn.
const BUDGET: u64 = 1000;

/// The lines that a reader gives and that `read_line` reads; then whether the reader stands at the
/// begin of a line, or the line that it refuses.
pub fn answer(
    alloc: Global,
    piece: &str,
    vars: &str,
    words: &[&str],
) -> Result<Vec<u8>, AllocError> {
    let (bits, rest) = lits_of(alloc, number_of(vars), words)?;
    let clauses = clauses_of(alloc, number_of(vars), rest)?;
    if !are_below(&bits, clauses.vars()) {
        return said_no(alloc);
    }
    let found = search(alloc, &clauses, &bits, BUDGET)?;
    let lines = log_of(&found).lines();
    if !are_writable(lines) {
        return said_no(alloc);
    }
    let text = log_text(alloc, lines)?;
    read_again(alloc, text.as_slice(), number_of(piece).max(1) as usize)
}

fn log_of(found: &Found) -> &Log {
    match found {
        Found::Optimal { log, .. } => log,
        Found::Refuted { log } => log,
        Found::Spent { log } => log,
    }
}

fn are_writable(lines: &[Line]) -> bool
    ensures { result ≡ true → AllLines (λ line. may_write line ≡ true) lines.now }
{
    lines.iter().all(|line| may_write(line))
}

/// Feeds a text in pieces, and says the lines again.
fn read_again(alloc: Global, text: &[u8], size: usize) -> Result<Vec<u8>, AllocError>
    requires { 0 < size }
{
    let mut reader = Reader::new(alloc);
    let mut lines = Vec::new(alloc);
    let mut rest = text;
    while !rest.is_empty() {
        let (piece, left) = rest.split_at(size.min(rest.len()));
        match reader.feed(alloc, piece, &mut lines) {
            Ok(()) => {}
            Err(LogFault::BadLine(number)) => return said_bad(alloc, number),
            Err(LogFault::OutOfMemory) => return Err(AllocError),
        }
        rest = left;
    }
    let again = each_again(alloc, lines.as_slice())?;
    let mut said = Vec::new(alloc);
    push_log(alloc, &mut said, again.as_slice())?;
    push_line(
        &mut said,
        if reader.at_line_start() {
            "whole"
        } else {
            "cut"
        },
    )?;
    Ok(said)
}

fn said_bad(alloc: Global, number: u64) -> Result<Vec<u8>, AllocError> {
    let mut text = Vec::new(alloc);
    let line = format!(in alloc; "bad {number}")?;
    push_line(&mut text, line.as_str())?;
    Ok(text)
}

/// Each line that can be written, read from its own text.
fn each_again(alloc: Global, lines: &[Line]) -> Result<Vec<Line>, AllocError> {
    let mut again = Vec::new(alloc);
    for line in lines {
        if may_write(line) {
            let mut text = Vec::new(alloc);
            write_line(alloc, line, &mut text)?;
            if let Some(line) = read_line(alloc, text.as_slice())? {
                again.push(line)?;
            }
        }
    }
    Ok(again)
}
