//! How a list is halved, and how the answers of its halves are put together.
ghost use Rattle.std.specs.Prelude.{◌≡◌, ◌-◌, ◌/◌, ◌++◌, IfOk};

use std::alloc::AllocError;

/// How many of so many stand in the first half, which is rounded up.
pub fn half_of(count: usize) -> usize
    ensures { result ≡ count - count / 2 }
{
    count - count / 2
}

/// What was found for two parts that stand behind each other.
pub fn joined<T: Drop>(front: Vec<T>, back: Vec<T>) -> Result<Vec<T>, AllocError>
    ensures { IfOk result (λ all. all.items ≡ front.items ++ back.items) }
{
    let (mut all, mut rest) = (front, back);
    all.append(&mut rest)?;
    Ok(all)
}
