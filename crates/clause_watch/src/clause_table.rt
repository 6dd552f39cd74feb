//! Clauses one after another: 4 bytes a literal, and where each clause ends.
ghost use Rattle.std.specs.Prelude.{◌≡◌, ◌+◌, ◌<◌, ◌^◌, [], ◌∷◌, ◌++◌, length, slice_get, Some, IfOk, OnOk, OnErr};

use crate::codes::Code;
use clause_store::{Lit, part};
use std::alloc::{AllocError, Global};
use std::marker::Model;

/// Clauses by their places, from 0 on, seen as the list of them.
#[derive(Drop)]
pub struct ClauseTable {
    /// The literals, clause after clause.
    codes: Vec<Code>,
    /// Where the literals of each clause end.
    ends: Vec<usize>,
}

impl Model for ClauseTable {
    ghost use Rattle.std.specs.Prelude.{List};
    ghost use Rattle.clause_store.specs.declared.Lit.{Lit};

    ghost Value = { List (List Lit) };

    ghost use Rattle.std.specs.Prelude.{length};
    ghost use Rattle.clause_store.specs.Kept.{IsCut};
    ghost use Rattle.clause_watch.specs.Parts.{parts};

    ghost view = { λ t. parts t.codes.items 0 t.ends.items };

    ghost invariant = { λ t. IsCut 0 t.ends.items (length t.codes.items) };
}

impl ClauseTable {
    /// No clause; there is room for so many, and for three literals in each.
    pub fn new(alloc: Global, clauses: usize) -> Result<ClauseTable, AllocError>
        ensures { IfOk result (λ t. t ≡ []) }
    {
        Ok(ClauseTable {
            codes: Vec::with_capacity(alloc, clauses.saturating_mul(3))?,
            ends: Vec::with_capacity(alloc, clauses)?,
        })
    }

    /// How many clauses there are.
    pub fn len(&self) -> usize
        ensures value { result ≡ length self.now }
        ensures small { result + 1 < 2 ^ 64 }
    {
        self.ends.len()
    }

    /// The literals of the clause at a place, as they are kept.
    pub fn lits(&self, place: usize) -> &[Code]
        requires { place < length self.now }
        ensures { slice_get self.now place ≡ Some result.now }
    {
        part(self.codes.as_slice(), self.ends.as_slice(), place)
    }

    /// One more clause. After an error nothing has changed.
    pub fn push(&mut self, lits: &[Lit]) -> Result<(), AllocError>
        ensures ok { OnOk result (self.new ≡ self.old ++ lits.now ∷ []) }
        ensures err { OnErr result (self.new ≡ self.old) }
    {
        let start = self.codes.len();
        append(&mut self.codes, lits)?;
        let end = self.codes.len();
        if let Err(error) = self.ends.push(end) {
            self.codes.truncate(start);
            return Err(error.into());
        }
        Ok(())
    }
}

/// Appends the codes of literals. After an error nothing has changed.
fn append(codes: &mut Vec<Code>, lits: &[Lit]) -> Result<(), AllocError>
    ensures ok { OnOk result (codes.new.items ≡ codes.old.items ++ lits.now) }
    ensures err { OnErr result (codes.new.items ≡ codes.old.items) }
{
    let start = codes.len();
    for lit in lits {
        if let Err(error) = push(codes, *lit) {
            codes.truncate(start);
            return Err(error);
        }
    }
    Ok(())
}

fn push(codes: &mut Vec<Code>, lit: Lit) -> Result<(), AllocError>
    ensures ok { OnOk result (codes.new.items ≡ codes.old.items ++ lit ∷ []) }
    ensures err { OnErr result (codes.new.items ≡ codes.old.items) }
{
    codes.push(Code::new(lit)?)?;
    Ok(())
}
