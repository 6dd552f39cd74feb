//! The bits of the numbers that are to be least.

ghost use Rattle.std.specs.Prelude.{◌≡◌, ◌++◌, ◌+◌, ◌<◌, ◌≤◌, ◌^◌, take, drop, length, OnOk};
ghost use Rattle.ranked_costs.specs.Built.{width_of};
ghost use Rattle.dimacs_text.specs.Sums as lines;

use crate::signs::{write_lit, write_lits, write_number};
use clause_circuits::size;
use clause_store::Lit;
use criteria_totals::Bits;
use std::alloc::{AllocError, Global};

// Each of these that takes `out` appends a text to it, or some of it after an error.

fn before(lits: &[Lit], count: usize) -> &[Lit]
    ensures { result.now ≡ take count lits.now }
{
    if count < lits.len() {
        &lits[..count]
    } else {
        lits
    }
}

fn after(lits: &[Lit], count: usize) -> &[Lit]
    ensures { result.now ≡ drop count lits.now }
{
    if count < lits.len() {
        &lits[count..]
    } else {
        &[]
    }
}

/// How many bits spell the numbers up to a greatest value.
fn width_of(top: u64) -> usize
    ensures value { result ≡ width_of top }
    ensures small { result ≤ 64 }
{
    if top <= 64 { top as usize } else { size(top) }
}

/// How these bits spell a number.
#[tactic(auto, unfolding(crate::specs::Sums::spelling_word))]
fn spelling_word(top: u64) -> &'static str
    ensures { result.now ≡ lines.spelling_word top }
{
    if top <= 64 { " unary " } else { " binary " }
}

/// The bits of a number, the first counting most.
#[tactic(auto, unfolding(crate::specs::Sums::number_line))]
fn write_number_line(
    alloc: Global,
    place: u64,
    top: u64,
    lits: &[Lit],
    out: &mut Vec<u8>,
) -> Result<(), AllocError>
    ensures { OnOk result (out.new.items ≡ out.old.items ++ lines.number_line place top lits.now) }
{
    out.extend_from_slice(b"c number ")?;
    write_number(alloc, place, out)?;
    out.extend_from_slice(spelling_word(top).as_bytes())?;
    write_number(alloc, top, out)?;
    out.extend_from_slice(b" ")?;
    write_lits(alloc, lits, out)
}

/// What a true bit adds to a number, where so many of its bits stand behind this one.
#[tactic(auto, unfolding(crate::specs::Sums::bit_weight))]
fn bit_weight(top: u64, behind: usize) -> u64
    requires { behind < 64 }
    ensures { result ≡ lines.bit_weight top behind }
{
    if top <= 64 { 1 } else { 1 << behind }
}

/// The number that a bit belongs to, and its weight there.
#[tactic(auto, unfolding(crate::specs::Sums::weight_text))]
fn write_weight(alloc: Global, place: u64, weight: u64, out: &mut Vec<u8>) -> Result<(), AllocError>
    ensures { OnOk result (out.new.items ≡ out.old.items ++ lines.weight_text place weight) }
{
    out.extend_from_slice(b" number ")?;
    write_number(alloc, place, out)?;
    out.extend_from_slice(b" weight ")?;
    write_number(alloc, weight, out)?;
    out.extend_from_slice(b"\n")
}

/// A bit by its literal, its place among all bits, the number that it belongs to, and its weight
/// there.
#[tactic(auto, unfolding(crate::specs::Sums::bit_line))]
fn write_bit(
    alloc: Global,
    lit: Lit,
    bit: usize,
    place: u64,
    weight: u64,
    out: &mut Vec<u8>,
) -> Result<(), AllocError>
    ensures { OnOk result (out.new.items ≡ out.old.items ++ lines.bit_line lit bit place weight) }
{
    out.extend_from_slice(b"c ")?;
    write_lit(alloc, lit, out)?;
    out.extend_from_slice(b"bit ")?;
    write_number(alloc, bit as u64, out)?;
    write_weight(alloc, place, weight, out)
}

/// The bits of a number, which count on from the given one.
fn write_bits(
    alloc: Global,
    place: u64,
    top: u64,
    bit: usize,
    lits: &[Lit],
    out: &mut Vec<u8>,
) -> Result<(), AllocError>
    requires bits { bit + length lits.now < 2 ^ 64 }
    requires few { length lits.now ≤ 64 }
    ensures { OnOk result (out.new.items ≡ out.old.items
        ++ lines.bit_lines place top bit lits.now) }
{
    match lits {
        [] => Ok(()),
        [lit, rest @ ..] => {
            write_bit(alloc, *lit, bit, place, bit_weight(top, rest.len()), out)?;
            write_bits(alloc, place, top, bit + 1, rest, out)
        }
    }
}

/// A number with its bits, which count on from the given one.
fn write_number_lines(
    alloc: Global,
    place: u64,
    top: u64,
    bit: usize,
    lits: &[Lit],
    out: &mut Vec<u8>,
) -> Result<(), AllocError>
    requires bits { bit + length lits.now < 2 ^ 64 }
    requires few { length lits.now ≤ 64 }
    ensures { OnOk result (out.new.items ≡ out.old.items
        ++ (lines.number_line place top lits.now ++ lines.bit_lines place top bit lits.now)) }
{
    write_number_line(alloc, place, top, lits, out)?;
    write_bits(alloc, place, top, bit, lits, out)
}

/// Numbers with their bits, which count on from a place and a bit.
fn write_from(
    alloc: Global,
    place: u64,
    bit: usize,
    tops: &[u64],
    lits: &[Lit],
    out: &mut Vec<u8>,
) -> Result<(), AllocError>
    requires places { place + length tops.now < 2 ^ 64 }
    requires bits { bit + length lits.now < 2 ^ 64 }
    ensures { OnOk result (out.new.items ≡ out.old.items
        ++ lines.number_lines place bit tops.now lits.now) }
{
    match tops {
        [] => Ok(()),
        [top, rest @ ..] => {
            let width = width_of(*top);
            let own = before(lits, width);
            write_number_lines(alloc, place, *top, bit, own, out)?;
            let behind = after(lits, width);
            write_from(alloc, place + 1, bit + own.len(), rest, behind, out)
        }
    }
}

/// All numbers with their bits.
pub(crate) fn write_sums(alloc: Global, bits: &Bits, out: &mut Vec<u8>) -> Result<(), AllocError>
    ensures { OnOk result (out.new.items ≡ out.old.items
        ++ lines.number_lines 1 0 bits.now.tops bits.now.lits) }
{
    let tops = bits.tops();
    let lits = bits.lits();
    let _numbers = tops.len();
    let _bits = lits.len();
    write_from(alloc, 1, 0, tops, lits, out)
}
