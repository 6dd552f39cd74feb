//! Weighted literals, and the bits of their sums.
ghost use Rattle.std.specs.Prelude.{◌≡◌, IfOk};

use clause_store::Lit;
use std::alloc::{AllocError, Global};
use std::marker::Model;

/// Weighted literals, whose sum is one number.
#[derive(Drop)]
pub struct Terms {
    items: Vec<(u64, Lit)>,
}

impl Model for Terms {
    ghost use Rattle.std.specs.Prelude.{List, ℕ};
    ghost use Rattle.clause_store.specs.declared.Lit.{Lit};

    ghost Value = { List (ℕ × Lit) };

    ghost view = { λ t. t.items.items };
}

impl Terms {
    /// The terms of a vector; takes no memory.
    pub fn from_vec(items: Vec<(u64, Lit)>) -> Terms
        ensures { result ≡ items.items }
    {
        Terms { items }
    }

    /// The terms of a slice.
    pub fn from_slice(alloc: Global, terms: &[(u64, Lit)]) -> Result<Terms, AllocError>
        ensures { IfOk result (λ t. t ≡ terms.now) }
    {
        Ok(Terms {
            items: Vec::from_slice(alloc, terms)?,
        })
    }

    /// The terms: weights and their literals.
    pub fn as_slice(&self) -> &[(u64, Lit)]
        ensures { result.now ≡ self.now }
    {
        self.items.as_slice()
    }
}

/// The bits of some sums, the highest bit of the first sum first.
#[derive(Drop)]
pub struct Bits {
    // The literals of the bits.
    pub(crate) lits: Vec<Lit>,
    // The greatest value of each sum.
    pub(crate) tops: Vec<u64>,
    // What each sum adds up.
    pub(crate) terms: Vec<Terms>,
}

impl Model for Bits {
    ghost use Rattle.criteria_totals.specs.Totals.{Spelling};

    ghost Value = { Spelling };

    ghost view = { λ b. record { lits = b.lits.items; tops = b.tops.items } };
}

impl Bits {
    /// The literals of the bits, from the first to compare on.
    pub fn lits(&self) -> &[Lit]
        ensures { result.now ≡ self.now.lits }
    {
        self.lits.as_slice()
    }

    /// The greatest value of each sum: the sum of its terms' weights.
    pub fn tops(&self) -> &[u64]
        ensures { result.now ≡ self.now.tops }
    {
        self.tops.as_slice()
    }

    /// What each sum adds up, for a search that decides these literals early. Nothing is promised
    /// of them.
    pub fn terms(&self) -> &[Terms] {
        self.terms.as_slice()
    }
}
