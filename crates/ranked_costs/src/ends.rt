//! Where numbers end among their bits.
ghost use Rattle.std.specs.Prelude.{◌≡◌, IfOk};
ghost use Rattle.ranked_costs.specs.Built.{width_of, ends_from};

use clause_circuits::size;
use std::alloc::{AllocError, Global};

// How many bits spell numbers up to a top: one for each below 65, and else binary digits.
fn width(top: u64) -> usize
    ensures { result ≡ width_of top }
{
    if top <= 64 { top as usize } else { size(top) }
}

/// The place behind the last bit of each number, where the numbers' bits stand one behind another
/// and these are their greatest values: what a search by numbers takes.
pub fn number_ends(alloc: Global, tops: &[u64]) -> Result<Vec<usize>, AllocError>
    ensures { IfOk result (λ ends. ends.items ≡ ends_from 0 tops.now) }
{
    let mut ends = Vec::new(alloc);
    let mut end: usize = 0;
    for top in tops {
        end = end.saturating_add(width(*top));
        ends.push(end)?;
    }
    Ok(ends)
}
