//! Numbers become truth values.
ghost use Rattle.std.specs.Prelude.{◌≡◌, ◌++◌, ◌≤◌, length, option_map, IfOk, OnOk};
ghost use Rattle.criteria_totals.specs.Spellings.{unary, binary, spelling_of, bits_for};

use crate::terms::Bits;
use clause_circuits::size;
use std::alloc::{AllocError, Global};

/// The truth values that spell a vector: None exactly where a number is above the sum of its terms'
/// weights. The vector has a number for each list.
pub fn bits_of(alloc: Global, bits: &Bits, vector: &[u64]) -> Result<Option<Vec<bool>>, AllocError>
    requires { length vector.now ≡ length bits.now.tops }
    ensures { IfOk result (λ values. option_map (λ v. v.items) values
        ≡ bits_for bits.now.tops vector.now) }
{
    let mut values = Vec::new(alloc);
    let tops = bits.tops();
    for (i, number) in vector.iter().enumerate() {
        let top = tops[i];
        if *number > top {
            return Ok(None);
        }
        push_spelled(&mut values, top, *number)?;
    }
    Ok(Some(values))
}

fn push_spelled(values: &mut Vec<bool>, top: u64, number: u64) -> Result<(), AllocError>
    ensures { OnOk result (values.new.items ≡ values.old.items ++ spelling_of top number) }
{
    if top <= 64 {
        push_unary(values, top, number)
    } else {
        push_binary(values, size(top), number)
    }
}

// "At least top", and so on down to "at least 1".
fn push_unary(values: &mut Vec<bool>, top: u64, number: u64) -> Result<(), AllocError>
    requires { top ≤ 64 }
    ensures { OnOk result (values.new.items ≡ values.old.items ++ unary top number) }
{
    for i in 0..top {
        values.push(top - i <= number)?;
    }
    Ok(())
}

// Binary digits, the highest first.
fn push_binary(values: &mut Vec<bool>, width: usize, number: u64) -> Result<(), AllocError>
    requires { width ≤ 63 }
    ensures { OnOk result (values.new.items ≡ values.old.items ++ binary width number) }
{
    let mut left = number;
    for i in 0..width {
        let place = 2u64.pow((width - 1 - i) as u32);
        let reached = place <= left;
        values.push(reached)?;
        if reached {
            left -= place;
        }
    }
    Ok(())
}
