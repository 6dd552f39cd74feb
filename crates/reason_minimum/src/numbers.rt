//! Numbers in rising order, each once.
ghost use Rattle.std.specs.Prelude.{◌≡◌, ◌≤◌, ◌||◌, ℕ, length, insert, IfOk, IfSome, IfNone, OnOk};
ghost use Rattle.std.specs.List.{filter};
ghost use Rattle.explain_failure.specs.Uses.{stands, IsRising};
ghost use Rattle.explain_failure.specs.Rising.{with_number};
ghost use Rattle.reason_minimum.specs.Parts.{without_number};

use std::alloc::{AllocError, Global};

/// Whether a number stands in a list.
pub fn stands(numbers: &[u64], number: u64) -> bool
    ensures { result ≡ stands numbers.now number }
{
    for other in numbers {
        if *other == number {
            return true;
        }
    }
    false
}

/// Where a number is to be put; none where it stands in the list.
pub fn insertion_place(numbers: &[u64], number: u64) -> Option<usize>
    ensures within { IfSome result (λ at. at ≤ length numbers.now) }
    ensures there { IfSome result (λ at. insert numbers.now at number
        ≡ with_number numbers.now number) }
    ensures present { IfNone result (with_number numbers.now number ≡ numbers.now) }
{
    for (place, other) in numbers.iter().enumerate() {
        if *other == number {
            return None;
        }
        if *other > number {
            return Some(place);
        }
    }
    Some(numbers.len())
}

/// Puts a number in its place, if it is not there.
pub fn put(numbers: &mut Vec<u64>, number: u64) -> Result<(), AllocError>
    ensures { OnOk result (numbers.new.items ≡ with_number numbers.old.items number) }
{
    if let Some(at) = insertion_place(numbers.as_slice(), number) {
        numbers.insert(at, number)?;
    }
    Ok(())
}

/// The numbers of two lists, the first of which rises, in rising order.
pub fn joined(alloc: Global, rising: &[u64], more: &[u64]) -> Result<Vec<u64>, AllocError>
    requires { IsRising rising.now }
    ensures rising { IfOk result (λ all. IsRising all.items) }
    ensures members { IfOk result (λ all. (n : ℕ) → stands all.items n
        ≡ (stands rising.now n || stands more.now n)) }
{
    let mut all = Vec::from_slice(alloc, rising)?;
    for number in more {
        put(&mut all, *number)?;
    }
    Ok(all)
}

/// The numbers that stand in another list.
pub fn those_of(alloc: Global, numbers: &[u64], others: &[u64]) -> Result<Vec<u64>, AllocError>
    ensures { IfOk result (λ kept. kept.items ≡ filter (stands others.now) numbers.now) }
{
    let mut kept = Vec::new(alloc);
    for number in numbers {
        if stands(others, *number) {
            kept.push(*number)?;
        }
    }
    Ok(kept)
}

/// The numbers but one.
pub fn without_number(alloc: Global, numbers: &[u64], number: u64) -> Result<Vec<u64>, AllocError>
    ensures { IfOk result (λ kept. kept.items ≡ without_number number numbers.now) }
{
    let mut kept = Vec::new(alloc);
    for other in numbers {
        if *other != number {
            kept.push(*other)?;
        }
    }
    Ok(kept)
}
