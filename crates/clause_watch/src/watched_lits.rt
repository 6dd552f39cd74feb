//! The literals of each clause in an order of its own, the two that are watched first.
ghost use Rattle.std.specs.Prelude.{◌≡◌, ◌<◌, true, [], ◌∷◌, length, IfOk, OnOk};
ghost use Rattle.std.specs.List.{swap};
ghost use Rattle.clause_store.specs.Lits.{has, IsClause};
ghost use Rattle.clause_watch.specs.Picks.{WatchesPair, PushesOther};

use crate::codes::Code;
use clause_store::Lit;
use smallvec::SmallVec;
use std::alloc::{AllocError, Global};
use std::marker::Model;

/// The literals of a clause in an order of their own. Up to four lie in the value itself.
#[derive(Drop)]
pub struct WatchedLits {
    codes: SmallVec<Code, 4>,
}

impl Model for WatchedLits {
    ghost use Rattle.std.specs.Prelude.{List};
    ghost use Rattle.clause_store.specs.declared.Lit.{Lit};

    ghost Value = { List Lit };

    ghost view = { λ o. o.codes.items };
}

/// Appends a literal that is of neither variable.
fn push_other(
    order: &mut SmallVec<Code, 4>,
    code: &Code,
    first: Lit,
    second: Lit,
) -> Result<(), AllocError>
    ensures { OnOk result (PushesOther order.old.items order.new.items code.now first second) }
{
    let lit = code.lit();
    if lit.var.0 == first.var.0 || lit.var.0 == second.var.0 {
        return Ok(());
    }
    order.push(code.copy())?;
    Ok(())
}

impl WatchedLits {
    /// The literals of a clause, two of them first.
    pub fn of_pair(
        alloc: Global,
        lits: &[Code],
        first: Lit,
        second: Lit,
    ) -> Result<WatchedLits, AllocError>
        requires in_order { IsClause lits.now }
        requires first { has lits.now first ≡ true }
        requires second { has lits.now second ≡ true }
        ensures { IfOk result (WatchesPair lits.now first second) }
    {
        let mut order = SmallVec::new(alloc);
        order.push(Code::new(first)?)?;
        order.push(Code::new(second)?)?;
        for code in lits {
            push_other(&mut order, code, first, second)?;
        }
        Ok(WatchedLits { codes: order })
    }

    /// A single literal.
    pub fn single(alloc: Global, lit: Lit) -> Result<WatchedLits, AllocError>
        ensures { IfOk result (λ o. o ≡ lit ∷ []) }
    {
        let mut codes = SmallVec::new(alloc);
        codes.push(Code::new(lit)?)?;
        Ok(WatchedLits { codes })
    }

    /// The literals in order, as they are kept.
    pub fn codes(&self) -> &[Code]
        ensures { result.now ≡ self.now }
    {
        self.codes.as_slice()
    }

    /// Two places change their literals.
    pub fn swap(&mut self, a: usize, b: usize)
        requires first { a < length self.old }
        requires second { b < length self.old }
        ensures { self.new ≡ swap self.old a b }
    {
        self.codes.as_mut_slice().swap(a, b);
    }
}
