//! Literals and entries as they are kept: in 4 and in 8 bytes.
ghost use Rattle.std.specs.Prelude.{◌≡◌, ◌≤◌, ◌<◌, ◌^◌, IfOk, IfErr};
ghost use Rattle.clause_store.specs.Lits.{var_of};

use crate::lists::Entry;
use clause_store::{Lit, Var};
use std::alloc::AllocError;
use std::marker::Model;

/// A literal: twice its variable, and one more where it is true with it.
#[derive(Default, Drop)]
pub struct Code {
    bits: u32,
}

impl Model for Code {
    ghost use Rattle.clause_store.specs.declared.Lit.{Lit};

    ghost Value = { Lit };

    ghost use Rattle.clause_store.specs.Kept.{lit_of_code};

    ghost view = { λ c. lit_of_code c.bits };
}

impl Code {
    /// The code of a literal; beyond 31 bits want of memory.
    #[tactic(auto, using(crate::proofs::Halves::half_of, crate::proofs::Halves::odd_of))]
    pub fn new(lit: Lit) -> Result<Code, AllocError>
        ensures ok { IfOk result (λ c. c ≡ lit) }
        ensures cause { IfErr result (λ _. 2 ^ 31 ≤ var_of lit) }
    {
        if lit.var.0 > u64::from(u32::MAX / 2) {
            return Err(AllocError);
        }
        Ok(Code {
            bits: lit.var.0 as u32 * 2 + u32::from(lit.positive),
        })
    }

    /// The literal.
    pub fn lit(&self) -> Lit
        ensures { result ≡ self.now }
    {
        Lit {
            var: Var(u64::from(self.bits / 2)),
            positive: self.bits % 2 == 1,
        }
    }

    /// The same once more.
    pub fn copy(&self) -> Code
        ensures { result ≡ self.now }
    {
        Code { bits: self.bits }
    }
}

/// A number in fewer bits; beyond them want of memory.
pub fn narrow(number: usize) -> Result<u32, AllocError>
    ensures ok { IfOk result (λ small. small ≡ number) }
    ensures cause { IfErr result (λ _. 2 ^ 32 ≤ number) }
{
    if number > u32::MAX as usize {
        return Err(AllocError);
    }
    Ok(number as u32)
}

/// A place that leaves a bit free; beyond 31 bits want of memory.
fn in_31_bits(place: u32) -> Result<u32, AllocError>
    ensures ok { IfOk result (λ p. (p ≡ place) × (p < 2 ^ 31)) }
    ensures cause { IfErr result (λ _. 2 ^ 31 ≤ place) }
{
    if place > u32::MAX / 2 {
        return Err(AllocError);
    }
    Ok(place)
}

/// An entry: twice its place, and one more where its clause surely has two literals; and the code
/// of its other literal.
#[derive(Default, Drop)]
pub struct Packed {
    head: u32,
    other: Code,
}

impl Model for Packed {
    ghost use Rattle.clause_watch.specs.declared.lists.Entry.{Entry};

    ghost Value = { Entry };

    ghost use Rattle.std.specs.Prelude.{◌/◌, ◌%◌, ◌==◌};

    ghost view = { λ p. record { place = p.head / 2; two = p.head % 2 == 1; other = p.other } };
}

impl Packed {
    /// The form of an entry that is kept; beyond 31 bits want of memory.
    #[tactic(auto, using(crate::proofs::Halves::half_of, crate::proofs::Halves::odd_of))]
    pub fn new(entry: Entry) -> Result<Packed, AllocError>
        ensures { IfOk result (λ p. p ≡ entry) }
    {
        let other = Code::new(entry.other)?;
        let place = in_31_bits(entry.place)?;
        Ok(Packed {
            head: place * 2 + u32::from(entry.two),
            other,
        })
    }

    /// The entry.
    pub fn entry(&self) -> Entry
        ensures { result ≡ self.now }
    {
        Entry {
            place: self.head / 2,
            two: self.head % 2 == 1,
            other: self.other.lit(),
        }
    }

    /// Its other literal.
    pub fn other(&self) -> Lit
        ensures { result ≡ self.now.other }
    {
        self.other.lit()
    }

    /// The same once more.
    pub fn copy(&self) -> Packed
        ensures { result ≡ self.now }
    {
        Packed {
            head: self.head,
            other: self.other.copy(),
        }
    }
}
