//! The check of a text that may be a log's, in pieces.
//!
//! `new`, then `take` for each piece as long as it says so, and `finish`.

ghost use Rattle.std.specs.Prelude.{◌≡◌, [], true, not, IfOk, OnOk, OnErr, IsErr};
ghost use Rattle.std.specs.Option.{option_map};
ghost use Rattle.clause_store.specs.Clauses.{clauses_of};
ghost use Rattle.proof_log.specs.Known.{AllClauses};
ghost use Rattle.log_checker.specs.Steps.{begun};
ghost use Rattle.certified.specs.Texts.{answer_at, is_settled, IsAfter, IsFed, TakesPiece};

use crate::check::feed;
use clause_store::{ClauseList, Lit};
use log_checker::{Checker, Step};
use proof_log::{LogFault, Reader};
use std::alloc::{AllocError, Global};
use std::marker::Model;
use std::thread::Threads;

/// The answer to a text.
#[derive(Clone, Copy)]
pub enum TextAnswer {
    /// What the checker answers to its lines: the first refusal, or the answer at their end.
    Checked(Step),
    /// The number, from 1, of the first line that spells none or is not ended by a line feed. Those
    /// before it were accepted.
    BadLine(u64),
}

/// A checker of a text in pieces. It keeps the clauses and the bytes of the line that has begun, so
/// its memory grows with what is learnt and not with the text.
#[derive(Drop)]
pub struct TextChecker {
    alloc: Global,
    checker: Checker,
    reader: Reader,
    // Whether the reader came to a line that spells none.
    failed: bool,
    // Whether there was no memory for a piece.
    short: bool,
}

impl Model for TextChecker {
    ghost use Rattle.certified.specs.Texts.{Stage};

    ghost Value = { Stage };

    ghost view = { λ c. record { progress = c.checker; place = c.reader; failed = c.failed; short = c.short } };
}

/// Reads a piece, and has the lines that end in it checked. Answers whether the reader came to a
/// bad line.
fn take_piece<R: Threads + Sync>(
    rt: &R,
    alloc: Global,
    checker: &mut Checker,
    reader: &mut Reader,
    piece: &[u8],
) -> Result<bool, AllocError>
    ensures taken { OnOk result (TakesPiece checker.old checker.new reader.old reader.new piece.now) }
    ensures failed { IfOk result (λ failed. failed ≡ reader.new.failed) }
{
    let mut lines = Vec::new(alloc);
    let failed = match reader.feed(alloc, piece, &mut lines) {
        Ok(()) => false,
        Err(LogFault::BadLine(_)) => true,
        Err(LogFault::OutOfMemory) => return Err(AllocError),
    };
    feed(rt, checker, lines.as_slice())?;
    Ok(failed)
}

impl TextChecker {
    /// A checker before the first byte: with values, of certificates that these are the least
    /// values of the bits; without, of refutations.
    pub fn new(
        alloc: Global,
        clauses: &ClauseList,
        bits: &[Lit],
        values: Option<&[bool]>,
    ) -> Result<TextChecker, AllocError>
        ensures begun { IfOk result (λ checker.
            IsAfter (begun clauses.now bits.now (option_map (λ v. v.now) values.entry)) []
            checker) }
        ensures in_order { OnOk result (AllClauses (clauses_of clauses.now.entries)) }
    {
        Ok(TextChecker {
            alloc,
            checker: Checker::new(alloc, clauses, bits, values)?,
            reader: Reader::new(alloc),
            failed: false,
            short: false,
        })
    }

    /// Whether no further byte changes the answer.
    fn is_settled(&self) -> bool
        ensures { result ≡ is_settled self.now }
    {
        match self.checker.so_far() {
            Step::Refused { .. } => true,
            Step::Accepted => self.failed,
        }
    }

    /// Takes the next bytes, and has the lines that end in them checked. Answers whether further
    /// bytes may change the answer; where they may not, none is read.
    ///
    /// # Errors
    ///
    /// After want of memory each later call answers the same.
    pub fn take<R: Threads + Sync>(&mut self, rt: &R, piece: &[u8]) -> Result<bool, AllocError>
        ensures fed { OnOk result (IsFed self.old self.new piece.now) }
        ensures goes_on { IfOk result (λ goes_on. goes_on ≡ not (is_settled self.new)) }
        ensures err { OnErr result (self.new.short ≡ true) }
        ensures stays { self.old.short ≡ true → IsErr result }
    {
        if self.short {
            return Err(AllocError);
        }
        if self.is_settled() {
            return Ok(false);
        }
        self.short = true;
        self.failed = take_piece(rt, self.alloc, &mut self.checker, &mut self.reader, piece)?;
        self.short = false;
        Ok(!self.is_settled())
    }

    /// The answer to the bytes so far, if no more come.
    pub fn finish(&self) -> TextAnswer
        ensures { result ≡ answer_at self.now.progress self.now.failed self.now.place.rest }
    {
        let so_far = self.checker.so_far();
        if let Step::Refused { .. } = so_far {
            return TextAnswer::Checked(so_far);
        }
        if self.failed || !self.reader.at_line_start() {
            return TextAnswer::BadLine(self.checker.line());
        }
        TextAnswer::Checked(self.checker.finish())
    }
}
