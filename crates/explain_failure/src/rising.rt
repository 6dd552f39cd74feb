//! Numbers in rising order, each once.
ghost use Rattle.std.specs.Prelude.{◌≡◌, ◌↔◌, ◌≤◌, Some, length, slice_get, IsTrue, OnOk};
ghost use Rattle.explain_failure.specs.Rising.{place_of, with_number};

use std::alloc::AllocError;

/// Puts a number in its place, if it is not there.
pub fn put(numbers: &mut Vec<u64>, number: u64) -> Result<(), AllocError>
    ensures { OnOk result (numbers.new.items ≡ with_number numbers.old.items number) }
{
    let at = find_place(numbers.as_slice(), number);
    if stands_at(numbers.as_slice(), at, number) {
        return Ok(());
    }
    numbers.insert(at, number)?;
    Ok(())
}

fn stands_at(numbers: &[u64], at: usize, number: u64) -> bool
    ensures { IsTrue result ↔ (slice_get numbers.now at ≡ Some number) }
{
    match numbers.get(at) {
        Some(other) => *other == number,
        None => false,
    }
}

/// The first place whose number is not below this one.
fn find_place(numbers: &[u64], number: u64) -> usize
    ensures value { result ≡ place_of numbers.now number }
    ensures within { result ≤ length numbers.now }
{
    for (place, other) in numbers.iter().enumerate() {
        if *other >= number {
            return place;
        }
    }
    numbers.len()
}
