//! Numbers among the words.

ghost use Rattle.std.specs.Prelude.{◌≡◌, IfOk};
ghost use Rattle.run_words.specs.Numbers.{with_decimal_digit, digits_behind, if_decimal, number_of_word};

use std::alloc::{AllocError, Global};

/// The number with one more digit; none from 2^64 on.
fn with_digit(value: u64, byte: u8) -> Option<u64>
    ensures { result ≡ with_decimal_digit value byte }
{
    value
        .checked_mul(10)?
        .checked_add(u64::from(byte.saturating_sub(b'0')))
}

/// The number that digits write behind those of another. What is no digit is read somehow.
fn digits_behind(value: u64, text: &[u8]) -> Option<u64>
    ensures { result ≡ digits_behind value text.now }
{
    let mut number = value;
    for byte in text {
        number = with_digit(number, *byte)?;
    }
    Some(number)
}

/// The number, where it is written so.
#[tactic(auto, unfolding(crate::specs::Numbers::if_decimal))]
fn if_written(alloc: Global, text: &str, number: u64) -> Result<Option<u64>, AllocError>
    ensures { IfOk result (λ n. n ≡ if_decimal text.now number) }
{
    let written = format!(in alloc; "{number}")?;
    if written.as_str() == text {
        Ok(Some(number))
    } else {
        Ok(None)
    }
}

/// The number that a word is: decimal, below 2^64, without leading zeros.
#[tactic(auto, unfolding(crate::specs::Numbers::number_of_word))]
pub(crate) fn number_of_word(alloc: Global, text: &str) -> Result<Option<u64>, AllocError>
    ensures { IfOk result (λ n. n ≡ number_of_word text.now) }
{
    match digits_behind(0, text.as_bytes()) {
        Some(number) => if_written(alloc, text, number),
        None => Ok(None),
    }
}
