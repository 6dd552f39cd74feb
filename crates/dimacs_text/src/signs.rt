//! Numbers and literals.

ghost use Rattle.std.specs.Prelude.{◌≡◌, ◌++◌, decimal, OnOk};
ghost use Rattle.dimacs_text.specs.Signs as signs;

use clause_store::Lit;
use std::alloc::{AllocError, Global};

// Each of these appends a text to `out`, or some of it after an error.

pub(crate) fn write_number(alloc: Global, number: u64, out: &mut Vec<u8>) -> Result<(), AllocError>
    ensures { OnOk result (out.new.items ≡ out.old.items ++ decimal number) }
{
    let text = format!(in alloc; "{number}")?;
    out.extend_from_slice(text.as_bytes())
}

#[tactic(auto, unfolding(crate::specs::Signs::sign_text))]
fn write_sign(positive: bool, out: &mut Vec<u8>) -> Result<(), AllocError>
    ensures { OnOk result (out.new.items ≡ out.old.items ++ signs.sign_text positive) }
{
    if positive {
        Ok(())
    } else {
        out.extend_from_slice(b"-")
    }
}

/// A literal by its variable, which counts from 1, and a blank behind it.
#[tactic(auto, unfolding(crate::specs::Signs::lit_text))]
pub(crate) fn write_lit(alloc: Global, lit: Lit, out: &mut Vec<u8>) -> Result<(), AllocError>
    ensures { OnOk result (out.new.items ≡ out.old.items ++ signs.lit_text lit) }
{
    write_sign(lit.positive, out)?;
    let number = u128::from(lit.var.0) + 1;
    let text = format!(in alloc; "{number} ")?;
    out.extend_from_slice(text.as_bytes())
}

/// Literals, and `0` behind them.
#[tactic(auto, unfolding(crate::specs::Signs::lits_line))]
pub(crate) fn write_lits(alloc: Global, lits: &[Lit], out: &mut Vec<u8>) -> Result<(), AllocError>
    ensures { OnOk result (out.new.items ≡ out.old.items ++ signs.lits_line lits.now) }
{
    for lit in lits {
        write_lit(alloc, *lit, out)?;
    }
    out.extend_from_slice(b"0\n")
}
