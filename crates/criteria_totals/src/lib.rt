//! Sums of weighted literals as bits that compare as the sums do.
//!
//! It promises: `totals` adds clauses that define bits, from the first list's sum to the last's,
//! and in every model the bits compare, from the first on, as the sums do; equal bits mean equal
//! sums; `bits_of` gives the bits of any sums. A sum up to 64 is unary, by merged sorted lists; a
//! larger one is binary, by digits of base 4 (`sum_by_digits`), each a sorted list of at most three
//! literals inside. It stands on `clause_circuits`, for gates, trees and their words. It must not
//! know what is summed up.
#![tactic(auto)]

mod bits;
mod digits;
mod merges;
mod planned;
mod terms;
mod unary;
mod values;
mod worked_rows;

pub use bits::{plan_digits, sum_by_digits};
pub use planned::totals;
pub use terms::{Bits, Terms};
pub use values::bits_of;
pub use worked_rows::{worked_digits, worked_sums, worked_totals};
