//! Answers as texts.

use certified::TextAnswer;
use log_checker::{Step, Why};
use std::alloc::{AllocError, Global};

fn why_name(why: Why) -> &'static str {
    match why {
        Why::WrongCounts => "WrongCounts",
        Why::OutOfOrder => "OutOfOrder",
        Why::UnknownId => "UnknownId",
        Why::NoPivot => "NoPivot",
        Why::TwoPivots => "TwoPivots",
        Why::NotContained => "NotContained",
        Why::WrongBit => "WrongBit",
        Why::NotNew => "NotNew",
        Why::Unfinished => "Unfinished",
    }
}

/// `accepted`, or `3 NoPivot`.
pub fn step_text(alloc: Global, step: Step) -> Result<String, AllocError> {
    match step {
        Step::Accepted => String::from_str(alloc, "accepted"),
        Step::Refused { line, why } => format!(in alloc; "{} {}", line, why_name(why)),
    }
}

/// The same, or `2 BadLine`.
pub fn text_answer(alloc: Global, answer: TextAnswer) -> Result<String, AllocError> {
    match answer {
        TextAnswer::Checked(step) => step_text(alloc, step),
        TextAnswer::BadLine(line) => format!(in alloc; "{line} BadLine"),
    }
}

/// One answer where all are the same, and else each of them.
pub fn joined(alloc: Global, answers: &[String]) -> Result<String, AllocError> {
    let mut text = String::new(alloc);
    for (place, answer) in answers.iter().enumerate() {
        if place == 0 {
            text.push_str(answer.as_str())?;
        } else if answer.as_str() != answers[0].as_str() {
            text.push_str(" but ")?;
            text.push_str(answer.as_str())?;
        }
    }
    Ok(text)
}
