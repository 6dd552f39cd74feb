//! Answers as text.

use clause_store::Lit;
use proof_log::{Line, may_write, write_line};
use std::alloc::{AllocError, Global};

/// A word, and a line feed.
pub fn push_line(text: &mut Vec<u8>, word: &str) -> Result<(), AllocError> {
    text.extend_from_slice(word.as_bytes())?;
    text.push(b'\n')?;
    Ok(())
}

/// Literals as signed numbers from 1, each after a space.
pub fn push_lits(alloc: Global, text: &mut Vec<u8>, lits: &[Lit]) -> Result<(), AllocError> {
    for lit in lits {
        let sign = if lit.positive { " " } else { " -" };
        let number = format!(in alloc; "{}", u128::from(lit.var.0) + 1)?;
        text.extend_from_slice(sign.as_bytes())?;
        text.extend_from_slice(number.as_bytes())?;
    }
    Ok(())
}

/// The values of all variables as literals.
pub fn push_model(alloc: Global, text: &mut Vec<u8>, model: &[bool]) -> Result<(), AllocError> {
    for (place, value) in model.iter().enumerate() {
        let sign = if *value { " " } else { " -" };
        let number = format!(in alloc; "{}", place as u128 + 1)?;
        text.extend_from_slice(sign.as_bytes())?;
        text.extend_from_slice(number.as_bytes())?;
    }
    text.push(b'\n')?;
    Ok(())
}

/// The lines of a log.
pub fn push_log(alloc: Global, text: &mut Vec<u8>, lines: &[Line]) -> Result<(), AllocError> {
    for line in lines {
        if may_write(line) {
            write_line(alloc, line, text)?;
            text.push(b'\n')?;
        }
    }
    Ok(())
}

/// The answer to words that no call takes.
pub fn said_no(alloc: Global) -> Result<Vec<u8>, AllocError> {
    let mut text = Vec::new(alloc);
    push_line(&mut text, "no")?;
    Ok(text)
}
