//! The check of a whole text.

ghost use Rattle.std.specs.Prelude.{◌≡◌, IfOk, OnOk};
ghost use Rattle.std.specs.Option.{option_map};
ghost use Rattle.clause_store.specs.Clauses.{clauses_of};
ghost use Rattle.proof_log.specs.Readings.{reading};
ghost use Rattle.log_checker.specs.declared.step.Step.TheVariants.{Accepted};
ghost use Rattle.log_checker.specs.Kinds.{IsLogOf};
ghost use Rattle.log_checker.specs.Steps.{begun};
ghost use Rattle.certified.specs.declared.text.TextAnswer.TheVariants.{Checked};
ghost use Rattle.certified.specs.Texts.{answer_of, IsFed};

use crate::text::{TextAnswer, TextChecker};
use clause_store::{ClauseList, Lit};
use std::alloc::{AllocError, Global};
use std::thread::Threads;

/// How many bytes are taken at once.
const PIECE: usize = 65_536;

/// Takes a text piece by piece, as long as further bytes may change the answer.
fn take_text<R: Threads + Sync>(
    rt: &R,
    checker: &mut TextChecker,
    text: &[u8],
) -> Result<(), AllocError>
    ensures { OnOk result (IsFed checker.old checker.new text.now) }
{
    let mut rest = text;
    while !rest.is_empty() {
        let (piece, later) = rest.split_at(rest.len().min(PIECE));
        if !checker.take(rt, piece)? {
            return Ok(());
        }
        rest = later;
    }
    Ok(())
}

/// Whether a text is that of a certificate of these values, or of a refutation where there are
/// none; it may come from anywhere.
pub fn check_text<R: Threads + Sync>(
    rt: &R,
    alloc: Global,
    clauses: &ClauseList,
    bits: &[Lit],
    values: Option<&[bool]>,
    text: &[u8],
) -> Result<TextAnswer, AllocError>
    ensures answer { IfOk result (λ answer. answer
        ≡ answer_of (begun clauses.now bits.now (option_map (λ v. v.now) values.entry)) text.now) }
    ensures shown { IfOk result (λ answer. answer ≡ Checked Accepted
        → IsLogOf clauses.now.vars (clauses_of clauses.now.entries) bits.now
        (option_map (λ v. v.now) values.entry) (reading text.now).lines) }
{
    let mut checker = TextChecker::new(alloc, clauses, bits, values)?;
    take_text(rt, &mut checker, text)?;
    Ok(checker.finish())
}
