//! What the answer to a text comes to.

ghost use Rattle.std.specs.Prelude.{◌≡◌};
ghost use Rattle.certified.specs.Texts.{answer_at};
ghost use Rattle.run_answers.specs.Stages.{Is};
ghost use Rattle.run_answers.specs.Stops.{Gives, EndsInReadFault};
ghost use Rattle.run_task.specs.Certificates.{line_fault_of, verdict_on_text};

use certified::{TextAnswer, TextChecker};
use log_checker::{Step, Why};
use run_answers::{LineFault, ReadStop, Refusal};

/// Why the checker refuses a line, as a fault of the line.
fn fault_of(why: Why) -> LineFault
    ensures { result ≡ line_fault_of why }
{
    match why {
        Why::WrongCounts => LineFault::WrongCounts,
        Why::OutOfOrder => LineFault::OutOfOrder,
        Why::UnknownId => LineFault::UnknownId,
        Why::NoPivot => LineFault::NoPivot,
        Why::TwoPivots => LineFault::TwoPivots,
        Why::NotContained => LineFault::NotContained,
        Why::WrongBit => LineFault::WrongBit,
        Why::NotNew => LineFault::NotNew,
        Why::Unfinished => LineFault::Unfinished,
    }
}

/// What the checker's answer to a text comes to.
fn verdict_of(answer: TextAnswer) -> Result<(), ReadStop>
    ensures read { Gives result (Is (verdict_on_text answer)) }
    ensures no_fault { EndsInReadFault result → ⊥ }
{
    match answer {
        TextAnswer::Checked(Step::Accepted) => Ok(()),
        TextAnswer::Checked(Step::Refused { line, why }) => {
            Err(ReadStop::Refused(Refusal::BadCertificate(line, fault_of(why))))
        }
        TextAnswer::BadLine(line) => {
            Err(ReadStop::Refused(Refusal::BadCertificate(line, LineFault::BadLine)))
        }
    }
}

/// What is said of the bytes so far, if no more come.
pub(crate) fn verdict(checker: &TextChecker) -> Result<(), ReadStop>
    ensures read { Gives result (Is (verdict_on_text (answer_at checker.now.progress
        checker.now.failed checker.now.place.rest))) }
    ensures no_fault { EndsInReadFault result → ⊥ }
{
    verdict_of(checker.finish())
}
