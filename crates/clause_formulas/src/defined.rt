//! What is known of a formula.
ghost use Rattle.std.specs.Prelude.{◌≡◌, OnOk};
ghost use Rattle.clause_formulas.specs.Drafts.{reverse_of, draft_with, empty};

use clause_store::Lit;
use smallvec::SmallVec;
use std::alloc::{AllocError, Global};
use std::marker::Model;

/// A formula's value: a constant, or a literal that is true exactly where the formula is.
#[derive(Clone, Copy)]
pub enum Defined {
    Known(bool),
    By(Lit),
}

impl Defined {
    /// True where this one is false.
    pub fn reversed(self) -> Defined
        ensures { result ≡ reverse_of self }
    {
        match self {
            Defined::Known(value) => Defined::Known(!value),
            Defined::By(lit) => Defined::By(lit.negated()),
        }
    }
}

/// A clause in the making: some literal is true, or it always holds. Up to four literals stand in
/// place.
#[derive(Drop)]
pub(crate) struct Draft {
    lits: SmallVec<Lit, 4>,
    always: bool,
}

impl Model for Draft {
    ghost use Rattle.clause_formulas.specs.Drafts.{ClauseDraft};

    ghost Value = { ClauseDraft };

    ghost view = { λ d. record { lits = d.lits.items; always = d.always } };
}

impl Draft {
    /// No literal yet, and not known to hold.
    pub(crate) fn new(alloc: Global) -> Draft
        ensures { result ≡ empty }
    {
        Draft {
            lits: SmallVec::new(alloc),
            always: false,
        }
    }

    /// One more part: a known value, or a literal.
    pub(crate) fn put(&mut self, value: Defined) -> Result<(), AllocError>
        ensures { OnOk result (self.new ≡ draft_with self.old value) }
    {
        match value {
            Defined::Known(holds) => self.always = self.always || holds,
            Defined::By(lit) => self.lits.push(lit)?,
        }
        Ok(())
    }

    /// Whether a part is known to hold.
    pub(crate) fn always(&self) -> bool
        ensures { result ≡ self.now.always }
    {
        self.always
    }

    /// The literals, in the order in which they came.
    pub(crate) fn lits(&self) -> &[Lit]
        ensures { result.now ≡ self.now.lits }
    {
        self.lits.as_slice()
    }
}
