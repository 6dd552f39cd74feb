//! The bits of cost vectors.
ghost use Rattle.std.specs.Prelude.{◌≡◌, option_map, IfOk};
ghost use Rattle.criteria_totals.specs.Spellings.{bits_for};

use crate::encoded::Encoded;
use criteria_totals::bits_of;
use std::alloc::{AllocError, Global};

/// The values of the bits that spell a cost vector, the first number first.
///
/// None where a number is above the greatest value of its sum, as no valid graph's is, or where
/// there are not 31 of them.
pub fn values_of(
    alloc: Global,
    encoded: &Encoded,
    vector: &[u64],
) -> Result<Option<Vec<bool>>, AllocError>
    ensures { IfOk result (λ values. option_map (λ v. v.items) values
        ≡ bits_for encoded.now.bits.tops vector.now) }
{
    if vector.len() != encoded.bits.tops().len() {
        return Ok(None);
    }
    bits_of(alloc, &encoded.bits, vector)
}
